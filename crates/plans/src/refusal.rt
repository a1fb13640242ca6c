// Refusals: each has a number, by which tapes, programs and C know it. docs/REFUSALS.md has the table.
ghost use Rattle.std.specs.Prelude.{◌≡◌};
ghost use Rattle.plans.specs.Refusals.{number_of};
ghost use Rattle.plans.specs.declared.refusal.Refusal.TheVariants.{NumberNotThere};

use rules::UnknownRule;

// Why an input or a call was turned away. What was refused has changed nothing.
#[derive(Clone, Copy, PartialEq, Eq, Debug)]
pub enum Refusal {
    PlanEnds = 1,
    CountOutOfLimits = 2,
    BadRow = 3,
    PeriodFalls = 4,
    UseNotThere = 5,
    UseAgain = 6,
    BytesAfterPlan = 7,
    FewCells = 8,
    NumberNotThere = 9,
    AlreadyOpen = 10,
    NotRunning = 11,
    NoSuchUse = 12,
    AlreadyHeld = 13,
    LocksFull = 14,
    NotCovered = 15,
    JournalFull = 16,
    BudgetSpent = 17,
    UnreadableLine = 18,
    ShortSheet = 19,
}

impl Refusal {
    // 1 to 19.
    pub fn number(self) -> u8
        ensures { result ≡ number_of self }
    {
        self as u8
    }
}

// A rule that nobody knows is a number that is not there.
impl From<UnknownRule> for Refusal {
    ghost from_gives = { λ _ refusal. refusal ≡ NumberNotThere };

    fn from(_unknown: UnknownRule) -> Refusal {
        Refusal::NumberNotThere
    }
}
