// Tapes: their lines as calls. Calls are in `protocol`; `player` plays a tape.
#![tactic(auto)]

mod items;
mod lines;
mod numbers;

pub use items::{Item, Tape, Unreadable};
pub use lines::read_line;
