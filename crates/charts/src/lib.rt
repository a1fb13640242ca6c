// A plan that was accepted, and what a manager asks of it and of the locks that are held.
#![tactic(auto)]

mod blocking;
mod chart;
mod cover;
mod lookups;
mod planned;
mod reading;
mod starts;

pub use blocking::newest_blocker;
pub use chart::Chart;
pub use cover::{holds, may_read, may_write};
pub use planned::Planned;
