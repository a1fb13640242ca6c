// How tasks stand, and who runs.
ghost use Rattle.std.specs.Prelude.{◌≡◌, replicate};
ghost use Rattle.protocol.specs.Tasks.{resting, task_at, standing_at, is_ready, is_open, waits_for, place, has_place, served, running};
ghost use Rattle.protocol.specs.Machine.{names};
ghost use Rattle.protocol.specs.Served.{named_by};
ghost use Rattle.roster.specs.Records.{tasks_of};

use crate::roster::Roster;
use plans::MOST_TASKS;
use protocol::{Standing, Task};

// The task that a number names: the one that it waits for, else itself. A match, as it takes the holder out of the standing.
fn named_by(standing: Standing, k: u8) -> u8
    ensures { result ≡ named_by standing k }
{
    match standing {
        Standing::Waiting(holder) => holder,
        Standing::Resting | Standing::Ready => k,
    }
}

// The smallest of a task's number and the numbers of those that wait for it.
fn place(tasks: &[Task], task: u8) -> usize
    ensures { result ≡ place tasks.now task }
{
    let own = usize::from(task);
    let first = tasks
        .iter()
        .position(|t| t.standing == Standing::Waiting(task));
    first.unwrap_or(own).min(own)
}

impl Roster {
    pub fn all_resting() -> Roster
        ensures { tasks_of result ≡ replicate 16 resting }
    {
        Roster {
            tasks: [Task::default(); MOST_TASKS],
        }
    }

    // Whether the number is the place of a ready task: it can only be the place of the task that it names.
    fn is_place(&self, k: u8) -> bool
        ensures { result ≡ has_place (tasks_of self.now) k 0 (tasks_of self.now) }
    {
        let task = named_by(self.task(k).standing, k);
        self.task(task).standing == Standing::Ready && place(&self.tasks, task) == usize::from(k)
    }

    // Bit k is set when some ready task has place k.
    pub fn served(&self) -> u16
        ensures { result ≡ served (tasks_of self.now) }
    {
        // A bit for each of the 16 tasks.
        (0..16).fold(0, |word, k| {
            if self.is_place(k) {
                word | 1 << k
            } else {
                word
            }
        })
    }

    // The lowest bit of the served word is the running task's place, and the place names the task.
    #[tactic(auto, using(crate::proofs::ServedTasks::running_at))]
    pub fn running(&self) -> Option<u8>
        ensures { result ≡ running (tasks_of self.now) }
    {
        // With no bit set it is 16, and no task has that number.
        // At most 16: `as` is proved to lose no bit.
        let place = self.served().trailing_zeros() as u8;
        self.tasks
            .get(usize::from(place))
            .map(|t| named_by(t.standing, place))
    }

    pub fn is_running(&self, task: u8) -> bool
        ensures { result ≡ names task (running (tasks_of self.now)) }
    {
        self.running() == Some(task)
    }

    // The record of the task; one that is not there rests.
    pub fn task(&self, k: u8) -> Task
        ensures { result ≡ task_at (tasks_of self.now) k }
    {
        self.tasks.get(usize::from(k)).copied().unwrap_or_default()
    }
}
