// A stack of records in memory that the caller lends.
ghost use Rattle.std.specs.Prelude.{◌≡◌, ℕ, not, [], ◌∷◌, ◌++◌, ◌-◌, ◌≤◌, length, take, if◌then◌else◌, filter, ◌==◌, nat_lt, is_ok, slice_get};
ghost use Rattle.stacks.specs.Stacks.{items, room};

use std::marker::Model;

// There is no slot left.
#[derive(Clone, Copy, Debug, PartialEq, Eq)]
pub struct Full;

// A record that belongs to a task. A trait and no closure at each call: whose a record is, is a fact of its type.
pub trait Owned {
    ghost owner: { Self → ℕ };

    fn owner(&self) -> u8
        ensures { result ≡ owner self.now };
}

// Its records are the first `len` of the slots, the oldest first. The caller lends the slots, since the library does not allocate.
#[derive(Drop)]
pub struct Stack<'a, T> {
    slots: &'a mut [T],
    len: usize,
}

impl<'a, T> Model for Stack<'a, T> {
    ghost use Rattle.std.specs.Prelude.{◌≤◌, length, take};
    ghost use Rattle.stacks.specs.Stacked.{Stacked};

    ghost Value = { Stacked T };

    ghost view = { λ a. record { records = take a.len a.slots.now; slots = length a.slots.now } };

    ghost invariant = { λ a. a.len ≤ length a.slots.now };
}

impl<'a, T: Copy> Stack<'a, T> {
    // No record yet, and room for as many as there are slots.
    pub fn new(slots: &'a mut [T]) -> Stack<'a, T>
        ensures items { items result ≡ [] }
        ensures room { room result ≡ length slots.old }
    {
        Stack { slots, len: 0 }
    }

    pub fn as_slice(&self) -> &[T]
        ensures { result.now ≡ items self.now }
    {
        &self.slots[..self.len]
    }

    // The record that was pushed last.
    pub fn newest(&self) -> Option<T>
        ensures { result ≡ slice_get (items self.now) (length (items self.now) - 1) }
    {
        self.as_slice().last().copied()
    }

    // One record more, where there is a slot left; if not, nothing changes.
    pub fn push(&mut self, x: T) -> Result<(), Full>
        ensures taken { is_ok result ≡ nat_lt (length (items self.old)) (room self.old) }
        ensures items { items self.new ≡ (if is_ok result then items self.old ++ (x ∷ []) else items self.old) }
        ensures room { room self.new ≡ room self.old }
    {
        if self.len == self.slots.len() {
            return Err(Full);
        }
        self.slots[self.len] = x;
        self.len += 1;
        Ok(())
    }
}

// The records that are not the task's move to the front, in their order. How many they are.
fn keep_others<T: Copy + Owned>(records: &mut [T], task: u8) -> usize
    ensures kept { take result records.new ≡ filter (λ x. not (T.Owned.owner x == task)) records.old }
    ensures fewer { result ≤ length records.old }
{
    let mut kept = 0;
    // By place, since a slice has no `retain`, and one that is gone through by reference cannot be written.
    for i in 0..records.len() {
        let x = records[i];
        if x.owner() != task {
            records[kept] = x;
            kept += 1;
        }
    }
    kept
}

impl<'a, T: Copy + Owned> Stack<'a, T> {
    // The task's records leave, and the others keep their order.
    pub fn remove_of(&mut self, task: u8)
        ensures items { items self.new ≡ filter (λ x. not (T.Owned.owner x == task)) (items self.old) }
        ensures room { room self.new ≡ room self.old }
    {
        self.len = keep_others(&mut self.slots[..self.len], task);
    }
}
