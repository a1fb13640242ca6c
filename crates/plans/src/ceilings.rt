// Ceilings and bounds of a plan, each with the use that is the reason for it.
ghost use Rattle.std.specs.Prelude.{◌≡◌, IfOk};
ghost use Rattle.plans.specs.Answers.{ceiling_answer, bound_answer};
ghost use Rattle.plans.specs.Plans.{contents};
ghost use Rattle.plans.specs.Ceilings.{excluded, ceiling, attains, delays, costs, bound, CeilingLaw, BoundLaw};

use crate::parts::Use;
use crate::plan::Plan;
use crate::refusal::Refusal;
use rules::LockRule;

// Past every task, of which there are at most 16. A number and no Option: a task is compared with it as with any ceiling.
pub const NO_TASK: u8 = 16;

// The highest task that a lock can keep waiting, and the use by which it comes to that.
#[derive(Clone, Copy, Debug, PartialEq, Eq)]
pub struct Ceiling {
    // 16, past every task, where no use clashes with the lock.
    pub value: u8,
    pub reason: Option<Use>,
}

// The most ticks that lower tasks can run in an instance, and the use by which one of them holds the task up.
// Not one generic type with Ceiling: the value there is a task, and here a length of time.
#[derive(Clone, Copy, Debug, PartialEq, Eq)]
pub struct Bound {
    pub value: u16,
    pub reason: Option<Use>,
}

// A lock under a rule: its object, and the mode that it is held in.
#[derive(Drop)]
struct Held<'a, R> {
    rule: &'a R,
    object: usize,
    mode: u8,
}

impl<'a, R: LockRule> Held<'a, R> {
    fn excludes(&self, u: &Use) -> bool
        ensures { result ≡ excluded (R.meaning self.now.rule.now) self.now.object self.now.mode u.now }
    {
        usize::from(u.object) == self.object && self.rule.clashes(self.mode, u.mode)
    }

    fn ceiling(&self, uses: &[Use]) -> u8
        ensures { result ≡ ceiling (R.meaning self.now.rule.now) uses.now self.now.object self.now.mode }
    {
        // One closure for the test and the minimum: a filter before the fold would be a loop within the loop.
        uses.iter().fold(NO_TASK, |least, u| {
            if self.excludes(u) {
                least.min(u.task)
            } else {
                least
            }
        })
    }

    // Whether the use is a reason for the ceiling.
    fn attains(&self, ceiling: u8, u: &Use) -> bool
        ensures { result ≡ attains (R.meaning self.now.rule.now) self.now.object self.now.mode ceiling u.now }
    {
        self.excludes(u) && u.task == ceiling
    }
}

// A task of a plan, which lower tasks can hold up under a rule.
#[derive(Drop)]
struct HeldUp<'a, R> {
    rule: &'a R,
    plan: &'a Plan,
    task: usize,
}

impl<'a, R: LockRule> HeldUp<'a, R> {
    // Whether a lower task's lock can keep the task waiting.
    fn is_delayed_by(&self, u: &Use) -> bool
        ensures { result ≡ delays (R.meaning self.now.rule.now) (contents self.now.plan.now).uses self.now.task u.now }
    {
        let held = Held {
            rule: self.rule,
            object: usize::from(u.object),
            mode: u.mode,
        };
        self.task < usize::from(u.task) && self.task >= usize::from(held.ceiling(self.plan.uses()))
    }

    fn bound(&self) -> u16
        ensures { result ≡ bound (R.meaning self.now.rule.now) (contents self.now.plan.now) self.now.task }
    {
        self.plan
            .uses()
            .iter()
            .filter(|u| self.is_delayed_by(u))
            .map(|u| self.plan.budget(usize::from(u.task)))
            .max()
            .unwrap_or(0)
    }

    // Whether the use is a reason for the bound.
    fn costs(&self, bound: u16, u: &Use) -> bool
        ensures { result ≡ costs (R.meaning self.now.rule.now) (contents self.now.plan.now) self.now.task bound u.now }
    {
        self.is_delayed_by(u) && self.plan.budget(usize::from(u.task)) == bound
    }
}

impl Plan {
    // The ceiling of an object that is locked in a mode.
    pub fn ceiling<R: LockRule>(
        &self,
        rule: &R,
        object: usize,
        mode: usize,
    ) -> Result<Ceiling, Refusal>
        ensures answer { result ≡ ceiling_answer (R.meaning rule.now) (contents self.now) object mode }
        ensures law { IfOk result (λ c. CeilingLaw (R.meaning rule.now) (contents self.now).uses object mode c.value c.reason) }
    {
        if object >= self.objects().len() || mode >= usize::from(rule.modes()) {
            return Err(Refusal::NumberNotThere);
        }
        let held = Held {
            rule,
            object,
            // Below the rule's modes: `as` is proved to lose no bit, and `try_from` would add a refusal that cannot be.
            mode: mode as u8,
        };
        let value = held.ceiling(self.uses());
        let reason = self.uses().iter().find(|u| held.attains(value, u)).copied();
        Ok(Ceiling { value, reason })
    }

    // The bound of a task.
    pub fn bound<R: LockRule>(&self, rule: &R, task: usize) -> Result<Bound, Refusal>
        ensures answer { result ≡ bound_answer (R.meaning rule.now) (contents self.now) task }
        ensures law { IfOk result (λ b. BoundLaw (R.meaning rule.now) (contents self.now) task b.value b.reason) }
    {
        if task >= self.rows().len() {
            return Err(Refusal::NumberNotThere);
        }
        let held_up = HeldUp {
            rule,
            plan: self,
            task,
        };
        let value = held_up.bound();
        let reason = self
            .uses()
            .iter()
            .find(|u| held_up.costs(value, u))
            .copied();
        Ok(Bound { value, reason })
    }
}
