// The words that calls, answers and the manager's memory are put in.
ghost use Rattle.std.specs.Prelude.{◌≡◌};

use plans::Refusal;

// Four for each of 32 objects.
pub const CELLS: usize = 128;

// How a task stands. It is open when it does not rest.
#[derive(Clone, Copy, Debug, Default, PartialEq, Eq)]
pub enum Standing {
    #[default]
    Resting,
    Ready,
    // For the task with this number.
    Waiting(u8),
}

// What is kept of a task.
#[derive(Clone, Copy, Debug, Default, PartialEq, Eq)]
pub struct Task {
    pub standing: Standing,
    // Ticks that its instance has run.
    pub used: u16,
    // Ticks that lower tasks have run since it arrived.
    pub lost: u16,
    // The task that ran the last of them.
    pub lost_to: Option<u8>,
}

// A lock that is held: the task holds the object in the mode.
#[derive(Clone, Copy, Debug, Default, PartialEq, Eq)]
pub struct LockRecord {
    pub task: u8,
    pub object: u8,
    pub mode: u8,
}

// What a cell held before a task wrote it.
#[derive(Clone, Copy, Debug, Default, PartialEq, Eq)]
pub struct Image {
    pub task: u8,
    pub cell: u8,
    pub old: i32,
}

// What may be asked of the manager.
#[derive(Clone, Copy, Debug, PartialEq, Eq)]
pub enum Call {
    Arrive {
        task: u8,
    },
    Lock {
        task: u8,
        object: u8,
        mode: u8,
    },
    Read {
        task: u8,
        object: u8,
        part: u8,
    },
    Write {
        task: u8,
        object: u8,
        part: u8,
        value: i32,
    },
    Close {
        task: u8,
    },
    Drop {
        task: u8,
    },
    Tick,
}

// The ticks that an instance used and lost, and the task that they were lost to.
#[derive(Clone, Copy, Debug, PartialEq, Eq)]
pub struct Account {
    pub used: u16,
    pub lost: u16,
    pub lost_to: Option<u8>,
}

// What is kept of a task, without how it stands.
impl From<Task> for Account {
    ghost from_gives = { λ task account. account ≡ record { used = task.used; lost = task.lost; lost_to = task.lost_to } };

    fn from(task: Task) -> Account {
        Account {
            used: task.used,
            lost: task.lost,
            lost_to: task.lost_to,
        }
    }
}

// What the manager answers.
#[derive(Clone, Copy, Debug, PartialEq, Eq)]
pub enum Answer {
    Open,
    Granted,
    // For the task with this number.
    Wait(u8),
    Value(i32),
    Written,
    Closed(Account),
    Dropped(Account),
    Ran(u8),
    Idle,
    Refused(Refusal),
}
