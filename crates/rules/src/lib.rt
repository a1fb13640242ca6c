// Lock rules: what a mode of a lock reads and writes, and which modes clash. Plans are in `plans`.
#![tactic(auto)]

mod numbered;

ghost use Rattle.std.specs.Prelude.{◌≡◌};
ghost use Rattle.rules.specs.Meaning.{Meaning, Lawful, exclusive, read_write};
ghost use Rattle.std.proofs.Common.{rules};

pub use numbered::{NumberedRule, UnknownRule};

// An object has the parts 0 to 3.
pub const PARTS: u8 = 4;

// A lock rule. Its meaning is fixed, and every question is answered from it; each is about just the numbers that it takes, so no struct holds them.
pub trait LockRule {
    ghost meaning: { Self → Meaning };

    // How many modes there are, 1 to 8. They are numbered from 0.
    fn modes(&self) -> u8
        ensures { result ≡ (meaning self.now).modes };

    fn reads(&self, mode: u8, part: u8) -> bool
        ensures { result ≡ (meaning self.now).reads mode part };

    fn writes(&self, mode: u8, part: u8) -> bool
        ensures { result ≡ (meaning self.now).writes mode part };

    // Whether a lock held in one mode and a lock wanted by another task in the other exclude each other.
    fn clashes(&self, held: u8, wanted: u8) -> bool
        ensures { result ≡ (meaning self.now).clashes held wanted };

    ghost lawful: { (rule : Self) → Lawful (meaning rule) };
}

// Every lock excludes every other on the same object.
#[derive(Clone, Copy, Debug, PartialEq, Eq)]
pub struct Exclusive;

impl LockRule for Exclusive {
    ghost meaning = { λ _. exclusive };

    ghost lawful = { Prim.search rules };

    fn modes(&self) -> u8 {
        1
    }

    fn reads(&self, mode: u8, part: u8) -> bool {
        mode == 0 && part < PARTS
    }

    // What it reads it also writes.
    fn writes(&self, mode: u8, part: u8) -> bool {
        self.reads(mode, part)
    }

    fn clashes(&self, held: u8, wanted: u8) -> bool {
        held == 0 && wanted == 0
    }
}

// Readers share an object, a writer excludes all others.
#[derive(Clone, Copy, Debug, PartialEq, Eq)]
pub struct ReadWrite;

impl LockRule for ReadWrite {
    ghost meaning = { λ _. read_write };

    ghost lawful = { Prim.search rules };

    fn modes(&self) -> u8 {
        2
    }

    fn reads(&self, mode: u8, part: u8) -> bool {
        mode < 2 && part < PARTS
    }

    fn writes(&self, mode: u8, part: u8) -> bool {
        mode == 1 && part < PARTS
    }

    fn clashes(&self, held: u8, wanted: u8) -> bool {
        held < 2 && wanted < 2 && (held == 1 || wanted == 1)
    }
}
