// The face for C: functions on numbers and byte slices, a refusal as minus its number. `ceiling_locks_c` exports them, and include/ceiling_locks.h declares them.
#![tactic(auto)]

ghost use Rattle.std.specs.Prelude.{◌≡◌, length, Err};
ghost use Rattle.player.specs.Numbered.{play_numbered, NumberedLaws};
ghost use Rattle.ceiling_locks.specs.Numbers.{in_numbers, asked, under, Accepts, check_under, ceiling_under, bound_under, PlaysInNumbers};

use plans::{Plan, Refusal};
use player::play_numbered;
use rules::NumberedRule;

// Minus the refusal's number.
fn minus(refusal: Refusal) -> i64
    ensures { result ≡ in_numbers (Err refusal) }
{
    -i64::from(refusal.number())
}

fn in_numbers(r: Result<u32, Refusal>) -> i64
    ensures { result ≡ in_numbers r }
{
    r.map_or_else(minus, i64::from)
}

// A number as C passes it: a negative one is not there.
fn asked(n: i64) -> Result<usize, Refusal>
    ensures { result ≡ asked n }
{
    usize::try_from(n).map_err(|_| Refusal::NumberNotThere)
}

// The rule with this number, and the plan that is accepted under it.
fn accepted(rule: i64, plan: &[u8]) -> Result<(NumberedRule, Plan), Refusal>
    ensures { Accepts rule plan.now result }
{
    let rule = NumberedRule::try_from(rule)?;
    let plan = Plan::read_whole(&rule, plan)?;
    Ok((rule, plan))
}

fn check_under(rule: i64, plan: &[u8]) -> Result<u32, Refusal>
    ensures { result ≡ under rule (check_under plan.now) }
{
    accepted(rule, plan)?;
    Ok(0)
}

fn ceiling_under(rule: i64, plan: &[u8], object: i64, mode: i64) -> Result<u32, Refusal>
    ensures { result ≡ under rule (ceiling_under plan.now object mode) }
{
    let (rule, plan) = accepted(rule, plan)?;
    let ceiling = plan.ceiling(&rule, asked(object)?, asked(mode)?)?;
    Ok(u32::from(ceiling.value))
}

fn bound_under(rule: i64, plan: &[u8], task: i64) -> Result<u32, Refusal>
    ensures { result ≡ under rule (bound_under plan.now task) }
{
    let (rule, plan) = accepted(rule, plan)?;
    let bound = plan.bound(&rule, asked(task)?)?;
    Ok(u32::from(bound.value))
}

// 0 where the plan is accepted under the rule with this number.
pub fn check(rule: i64, plan: &[u8]) -> i64
    ensures { result ≡ in_numbers (under rule (check_under plan.now)) }
{
    in_numbers(check_under(rule, plan))
}

// The ceiling of an object that is locked in a mode.
pub fn ceiling(rule: i64, plan: &[u8], object: i64, mode: i64) -> i64
    ensures { result ≡ in_numbers (under rule (ceiling_under plan.now object mode)) }
{
    in_numbers(ceiling_under(rule, plan, object, mode))
}

// The bound of a task.
pub fn bound(rule: i64, plan: &[u8], task: i64) -> i64
    ensures { result ≡ in_numbers (under rule (bound_under plan.now task)) }
{
    in_numbers(bound_under(rule, plan, task))
}

// Plays the tape behind the plan onto the sheet, and answers how many bytes it wrote.
pub fn play(rule: i64, input: &[u8], sheet: &mut [u8]) -> i64
    ensures sheet { PlaysInNumbers (play_numbered rule input.now (length sheet.old)) sheet.old sheet.new result }
    ensures laws { NumberedLaws rule input.now }
{
    // No sheet is so long: `as` is proved to lose no bit.
    play_numbered(rule, input, sheet).map_or_else(minus, |written| written as i64)
}
