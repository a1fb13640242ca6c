// Plans: what is locked by whom, read from bytes, with its ceilings and bounds. Rules are in `rules`.
#![tactic(auto)]

mod ceilings;
mod parts;
mod plan;
mod reader;
mod refusal;

pub use ceilings::{Bound, Ceiling, NO_TASK};
pub use parts::{Object, Row, Use};
pub use plan::{MOST_OBJECTS, MOST_TASKS, Plan};
pub use refusal::Refusal;
