// A plan that was accepted, with the highest user of each object in each mode at hand.
ghost use Rattle.std.specs.Prelude.{◌≡◌, ℕ, ◌≤◌, length};
ghost use Rattle.plans.specs.Plans.{contents};
ghost use Rattle.charts.specs.Users.{entry, highest_user};

use plans::{MOST_OBJECTS, Plan};

// A rule has at most 8 modes.
pub(crate) const MODES: usize = 8;

#[derive(Drop)]
pub struct Chart {
    pub(crate) plan: Plan,
    // At each object, then each mode, the highest task that may lock the object in the mode.
    pub(crate) users: [[u8; MODES]; MOST_OBJECTS],
    // Every task has one of the 16 records. A proof above that does not read the tables knows it by this alone, and the next.
    ghost few_tasks: { length (contents plan).rows ≤ 16 },
    // Every object has its 4 of the 128 cells.
    ghost few_objects: { length (contents plan).objects ≤ 32 },
    ghost each: { (object mode : ℕ) → entry users object mode ≡ highest_user (contents plan).uses object mode },
}
