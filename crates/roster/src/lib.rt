// The records of the tasks: how each stands, who runs, and what calls make of them.
#![tactic(auto)]

mod roster;
mod standings;
mod turns;

pub use roster::Roster;
pub use turns::{NotAllowed, Turn};
