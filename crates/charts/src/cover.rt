// By which of the locks that are held a task may read or write.
ghost use Rattle.std.specs.Prelude.{◌≡◌, ℕ, Bool};
ghost use Rattle.protocol.specs.Machine.{any, is_record, covers};

use protocol::LockRecord;
use rules::LockRule;

// The numbers come one by one, as the calls of a manager have them: a struct of them would be made only to be taken apart.

// Whether the task has the object in the mode.
pub fn holds(locks: &[LockRecord], task: u8, object: u8, mode: u8) -> bool
    ensures { result ≡ any (is_record task object mode) locks.now }
{
    locks.contains(&LockRecord { task, object, mode })
}

// Whether one of them passes. The test is named here, as it is not in the contract of `any`, so that callers need no proof of their own.
pub(crate) fn some_passes<T, F: Fn(&T) -> bool>(items: &[T], passes: F) -> bool
    requires { F.IsAlwaysCallable passes }
    ensures { (test : T → Bool) → ((item : _) (answer : Bool) → F.post passes item answer → answer ≡ test item.now) → result ≡ any test items.now }
{
    items.iter().any(|item| passes(item))
}

// Whether the task has the object in a mode that passes.
fn covers<F: Fn(u8) -> bool>(locks: &[LockRecord], task: u8, object: u8, mode_passes: F) -> bool
    requires { F.IsAlwaysCallable mode_passes }
    ensures { (passes : ℕ → Bool) → ((mode : ℕ) (answer : Bool) → F.post mode_passes mode answer → answer ≡ passes mode) → result ≡ any (covers passes task object) locks.now }
{
    some_passes(
        locks,
        |r| r.task == task && r.object == object && mode_passes(r.mode),
    )
}

// Whether the task has the object in a mode that reads the part.
pub fn may_read<R: LockRule>(rule: &R, locks: &[LockRecord], task: u8, object: u8, part: u8) -> bool
    ensures { result ≡ any (covers (λ mode. (R.meaning rule.now).reads mode part) task object) locks.now }
{
    covers(locks, task, object, |mode| rule.reads(mode, part))
}

// Whether the task has the object in a mode that writes the part.
pub fn may_write<R: LockRule>(
    rule: &R,
    locks: &[LockRecord],
    task: u8,
    object: u8,
    part: u8,
) -> bool
    ensures { result ≡ any (covers (λ mode. (R.meaning rule.now).writes mode part) task object) locks.now }
{
    covers(locks, task, object, |mode| rule.writes(mode, part))
}
