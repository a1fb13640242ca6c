// The rows of a plan's three sections.

// A shared object: the values that its four parts start with.
#[derive(Clone, Copy, Debug, Default, PartialEq, Eq)]
pub struct Object {
    pub start: [i32; 4],
}

// A task: how often it may come, and the most ticks that one instance of it may run.
#[derive(Clone, Copy, Debug, Default, PartialEq, Eq)]
pub struct Row {
    pub period: u16,
    pub budget: u16,
}

// A task may lock an object in a mode.
#[derive(Clone, Copy, Debug, Default, PartialEq, Eq)]
pub struct Use {
    pub task: u8,
    pub object: u8,
    pub mode: u8,
}
