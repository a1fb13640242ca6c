// A plan: the objects, the tasks, and who may lock what.
ghost use Rattle.std.specs.Prelude.{◌≡◌};
ghost use Rattle.plans.specs.Contents.{budget_of};
ghost use Rattle.plans.specs.Plans.{contents};

use crate::parts::{Object, Row, Use};
use arrayvec::ArrayVec;

// Cells are numbered 4 × object + part, and 32 objects fill the 128 cells.
pub const MOST_OBJECTS: usize = 32;
// The served word has a bit for each task.
pub const MOST_TASKS: usize = 16;
// Every task may use every object in one mode.
pub const MOST_USES: usize = 512;

// Rows are numbered from 0; a task with a smaller number is higher.
#[derive(Drop)]
pub struct Plan {
    pub(crate) objects: ArrayVec<Object, MOST_OBJECTS>,
    pub(crate) rows: ArrayVec<Row, MOST_TASKS>,
    pub(crate) uses: ArrayVec<Use, MOST_USES>,
}

impl Plan {
    pub fn objects(&self) -> &[Object]
        ensures { result.now ≡ (contents self.now).objects }
    {
        self.objects.as_slice()
    }

    pub fn rows(&self) -> &[Row]
        ensures { result.now ≡ (contents self.now).rows }
    {
        self.rows.as_slice()
    }

    pub fn uses(&self) -> &[Use]
        ensures { result.now ≡ (contents self.now).uses }
    {
        self.uses.as_slice()
    }

    // The budget of a task, and 0 where there is no such task.
    pub fn budget(&self, task: usize) -> u16
        ensures { result ≡ budget_of (contents self.now) task }
    {
        self.rows().get(task).map_or(0, |row| row.budget)
    }
}
