// The rules that go by a number, as a program or C names them.
ghost use Rattle.std.specs.Prelude.{◌≡◌};
ghost use Rattle.rules.specs.Numbered.{meaning_of, Numbers};
ghost use Rattle.std.proofs.Common.{rules};

use crate::{Exclusive, LockRule, ReadWrite};

// One of them.
#[derive(Clone, Copy, Debug, PartialEq, Eq)]
pub enum NumberedRule {
    Exclusive,
    ReadWrite,
}

// No rule has the number.
#[derive(Clone, Copy, Debug, PartialEq, Eq)]
pub struct UnknownRule;

impl TryFrom<i64> for NumberedRule {
    type Error = UnknownRule;

    ghost try_from_gives = { Numbers };

    fn try_from(number: i64) -> Result<Self, UnknownRule> {
        match number {
            1 => Ok(NumberedRule::Exclusive),
            2 => Ok(NumberedRule::ReadWrite),
            _ => Err(UnknownRule),
        }
    }
}

// Each answer is that of the rule that is named. A closure for the question would name both rules at each call all the same, and no function may hand out a `dyn` rule.
impl LockRule for NumberedRule {
    ghost meaning = { meaning_of };

    ghost lawful = { Prim.search rules };

    fn modes(&self) -> u8 {
        match self {
            NumberedRule::Exclusive => Exclusive.modes(),
            NumberedRule::ReadWrite => ReadWrite.modes(),
        }
    }

    fn reads(&self, mode: u8, part: u8) -> bool {
        match self {
            NumberedRule::Exclusive => Exclusive.reads(mode, part),
            NumberedRule::ReadWrite => ReadWrite.reads(mode, part),
        }
    }

    fn writes(&self, mode: u8, part: u8) -> bool {
        match self {
            NumberedRule::Exclusive => Exclusive.writes(mode, part),
            NumberedRule::ReadWrite => ReadWrite.writes(mode, part),
        }
    }

    fn clashes(&self, held: u8, wanted: u8) -> bool {
        match self {
            NumberedRule::Exclusive => Exclusive.clashes(held, wanted),
            NumberedRule::ReadWrite => ReadWrite.clashes(held, wanted),
        }
    }
}
