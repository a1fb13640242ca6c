// The text of a report: a plan's ceilings and bounds, each with the reason for the number.
#![tactic(auto)]

mod accepted;
mod reports;
mod sink;

pub use reports::{Report, page_on};
