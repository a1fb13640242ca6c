// What a lock answers when it is not refused.

// An accepted lock. An Option would be no plainer: its None would have to mean that the lock was granted.
#[derive(Clone, Copy, Debug, PartialEq, Eq)]
pub enum Locked {
    Granted,
    // For the task with this number.
    Wait(u8),
}
