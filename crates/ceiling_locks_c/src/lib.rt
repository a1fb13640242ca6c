// What C links with: the four functions of `ceiling_locks` under their names. include/ceiling_locks.h declares them.
#![tactic(auto)]

ghost use Rattle.std.specs.Prelude.{◌≡◌, length};
ghost use Rattle.player.specs.Numbered.{play_numbered, NumberedLaws};
ghost use Rattle.ceiling_locks.specs.Numbers.{in_numbers, under, check_under, ceiling_under, bound_under, PlaysInNumbers};

// 0 where the plan is accepted under the rule with this number.
#[unsafe(no_mangle)]
pub extern "C" fn check(rule: i64, plan: &[u8]) -> i64
    ensures { result ≡ in_numbers (under rule (check_under plan.now)) }
{
    ceiling_locks::check(rule, plan)
}

// The ceiling of an object that is locked in a mode.
#[unsafe(no_mangle)]
pub extern "C" fn ceiling(rule: i64, plan: &[u8], object: i64, mode: i64) -> i64
    ensures { result ≡ in_numbers (under rule (ceiling_under plan.now object mode)) }
{
    ceiling_locks::ceiling(rule, plan, object, mode)
}

// The bound of a task.
#[unsafe(no_mangle)]
pub extern "C" fn bound(rule: i64, plan: &[u8], task: i64) -> i64
    ensures { result ≡ in_numbers (under rule (bound_under plan.now task)) }
{
    ceiling_locks::bound(rule, plan, task)
}

// Plays the tape behind the plan onto the sheet, and answers how many bytes it wrote.
#[unsafe(no_mangle)]
pub extern "C" fn play(rule: i64, input: &[u8], sheet: &mut [u8]) -> i64
    ensures sheet { PlaysInNumbers (play_numbered rule input.now (length sheet.old)) sheet.old sheet.new result }
    ensures laws { NumberedLaws rule input.now }
{
    ceiling_locks::play(rule, input, sheet)
}
