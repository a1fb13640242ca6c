// Stacks of records in lent memory: one text for lock records and for images. The manager holds one of each.
#![tactic(auto)]

mod records;
mod stack;

pub use records::put_back_own;
pub use stack::{Full, Owned, Stack};
