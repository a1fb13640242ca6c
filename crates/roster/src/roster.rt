// The records of the tasks.
ghost use Rattle.std.specs.Prelude.{◌≡◌, length};

use plans::MOST_TASKS;
use protocol::Task;

#[derive(Drop)]
pub struct Roster {
    pub(crate) tasks: [Task; MOST_TASKS],
    // A proof that does not read the array itself, as those of the crates above, knows its length by this alone.
    ghost whole: { length tasks ≡ 16 },
}
