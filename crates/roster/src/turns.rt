// What calls make of the tasks' records.
ghost use Rattle.std.specs.Prelude.{◌≡◌, ◌<◌, ◌&&◌, map, if◌then◌else◌, Ok, Err, is_ok, nat_lt};
ghost use Rattle.plans.specs.declared.refusal.Refusal.TheVariants.{BudgetSpent};
ghost use Rattle.protocol.specs.Tasks.{standing_at, task_at};
ghost use Rattle.protocol.specs.Machine.{change, wake, ticked, tick_from};
ghost use Rattle.roster.specs.Records.{tasks_of};
ghost use Rattle.roster.specs.Turns.{allows, turned};

use crate::roster::Roster;
use plans::{MOST_TASKS, Refusal};
use protocol::{Standing, Task};

// The task is not there, or does not stand so that it may.
#[derive(Clone, Copy, Debug, PartialEq, Eq)]
pub struct NotAllowed;

// What a call may make of its task.
#[derive(Clone, Copy, Debug, PartialEq, Eq)]
pub enum Turn {
    Arrive,
    // For the task with this number.
    Wait(u8),
    End,
}

// What a tick of the running task does to the record of task k: an open task above the running one loses it.
fn after_tick(running: u8, k: usize, t: Task) -> Task
    requires { k ≡ running → t.used < 65535 }
    ensures { result ≡ ticked running k t }
{
    if k == usize::from(running) {
        Task {
            used: t.used + 1,
            ..t
        }
    } else if k < usize::from(running) && t.standing != Standing::Resting {
        Task {
            lost: t.lost.saturating_add(1),
            lost_to: Some(running),
            ..t
        }
    } else {
        t
    }
}

impl Roster {
    // A turn of the task, where it is there and stands so that it may; if not, nothing changes.
    pub fn turn(&mut self, task: u8, turn: Turn) -> Result<(), NotAllowed>
        ensures allowed { is_ok result ≡ (nat_lt task 16 && allows (standing_at (tasks_of self.old) task) turn) }
        ensures tasks { tasks_of self.new ≡ (if is_ok result then change (turned turn) (tasks_of self.old) task else tasks_of self.old) }
    {
        let k = usize::from(task);
        if k >= MOST_TASKS {
            return Err(NotAllowed);
        }
        let t = &mut self.tasks[k];
        // The standing is matched together with the turn, one of the forms that docs/DECISIONS.md lists.
        match (t.standing, turn) {
            (Standing::Resting, Turn::Arrive) => {
                *t = Task {
                    standing: Standing::Ready,
                    ..Task::default()
                };
            }
            (Standing::Ready, Turn::Wait(holder)) => t.standing = Standing::Waiting(holder),
            (Standing::Ready, Turn::End) => t.standing = Standing::Resting,
            _ => return Err(NotAllowed),
        }
        Ok(())
    }

    // Those that wait for the task become ready.
    pub fn wake(&mut self, task: u8)
        ensures { tasks_of self.new ≡ map (wake task) (tasks_of self.old) }
    {
        for t in self.tasks.iter_mut() {
            if t.standing == Standing::Waiting(task) {
                t.standing = Standing::Ready;
            }
        }
    }

    // A tick of the running task, where its budget has one left; if not, nothing changes.
    pub fn tick(&mut self, running: u8, budget: u16) -> Result<(), Refusal>
        ensures allowed { result ≡ (if nat_lt (task_at (tasks_of self.old) running).used budget then Ok tt else Err BudgetSpent) }
        ensures tasks { tasks_of self.new ≡ (if is_ok result then tick_from running 0 (tasks_of self.old) else tasks_of self.old) }
    {
        if self.task(running).used >= budget {
            return Err(Refusal::BudgetSpent);
        }
        for (k, t) in self.tasks.iter_mut().enumerate() {
            *t = after_tick(running, k, *t);
        }
        Ok(())
    }
}
