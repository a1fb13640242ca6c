// What may be asked of a manager.
ghost use Rattle.std.specs.Prelude.{◌≡◌, if◌then◌else◌, Some, None};
ghost use Rattle.protocol.specs.Machine.{has_task};
ghost use Rattle.protocol.specs.Tasks.{task_at, served, running};
ghost use Rattle.stacks.specs.Stacks.{items};
ghost use Rattle.manager.specs.View.{setup_of};

use crate::manager::Manager;
use plans::Plan;
use protocol::{Image, LockRecord, Task};
use rules::LockRule;

impl<'a, R: LockRule> Manager<'a, R> {
    pub fn rule(&self) -> &R
        ensures { result.now ≡ self.now.rule }
    {
        &self.rule
    }

    pub fn plan(&self) -> &Plan
        ensures { result.now ≡ self.now.chart.plan }
    {
        self.chart.plan()
    }

    // The running task.
    pub fn running(&self) -> Option<u8>
        ensures { result ≡ running self.now.roster.tasks }
    {
        self.roster.running()
    }

    // Bit k is set when some ready task has place k.
    pub fn served(&self) -> u16
        ensures { result ≡ served self.now.roster.tasks }
    {
        self.roster.served()
    }

    // The record of a task of the plan.
    pub fn task(&self, task: u8) -> Option<Task>
        ensures { result ≡ (if has_task (setup_of R.meaning self.now) task then Some (task_at self.now.roster.tasks task) else None) }
    {
        self.chart.has_task(task).then_some(self.roster.task(task))
    }

    // The locks that are held, the oldest first.
    pub fn locks(&self) -> &[LockRecord]
        ensures { result.now ≡ items self.now.locks }
    {
        self.locks.as_slice()
    }

    // What cells held before the writes of open instances, the oldest first.
    pub fn journal(&self) -> &[Image]
        ensures { result.now ≡ items self.now.journal }
    {
        self.journal.as_slice()
    }
}
