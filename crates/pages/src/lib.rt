// A page of fixed size, and adding text, numbers and columns to it.
#![tactic(auto)]

mod page;
mod writing;

pub use page::{MOST, Page};
