// The protocol: the words in which calls and answers are put. The machine and its laws are in specs/, the manager that runs them in `manager`.
#![tactic(auto)]

mod laws;
mod words;

pub use laws::{laws_hold, served_agrees};
pub use words::{Account, Answer, CELLS, Call, Image, LockRecord, Standing, Task};
