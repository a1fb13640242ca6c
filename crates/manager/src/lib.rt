// The lock manager: locks under the priority ceiling protocol on one processor. Its machine and laws are in `protocol`.
#![tactic(auto)]

mod answers;
mod calls;
mod ends;
mod line;
mod making;
mod manager;
mod queries;
mod runner;

pub use answers::Locked;
pub use charts::Planned;
pub use manager::Manager;
