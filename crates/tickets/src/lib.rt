// Tickets: what a task's code holds instead of its number, and cannot forget to end. The numbered calls are in `manager`.
#![tactic(auto)]

mod calls;
mod ticket;

pub use ticket::Ticket;
