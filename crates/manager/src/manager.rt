// The manager: its rule and plan, the records of its tasks, and its two stacks.
use charts::Chart;
use protocol::{Image, LockRecord};
use roster::Roster;
use rules::LockRule;
use stacks::Stack;

// The cells are not its own: they are lent to the calls that read or write them.
#[derive(Drop)]
pub struct Manager<'a, R: LockRule> {
    pub(crate) rule: R,
    pub(crate) chart: Chart,
    pub(crate) roster: Roster,
    // The locks that are held.
    pub(crate) locks: Stack<'a, LockRecord>,
    // What cells held before the writes of open instances.
    pub(crate) journal: Stack<'a, Image>,
}
