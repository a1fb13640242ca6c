// A plan that was accepted, and the rule that it was accepted under.
ghost use Rattle.rules.specs.Numbered.{meaning_of};
ghost use Rattle.plans.specs.Kept.{Limits-prop};
ghost use Rattle.plans.specs.Limits.{Limits};
ghost use Rattle.plans.specs.Plans.{contents};

use plans::Plan;
use rules::NumberedRule;

// It has a file of its own, as the words of `specs/` that its methods promise name it.
#[derive(Drop)]
pub(crate) struct Accepted {
    pub(crate) rule: NumberedRule,
    pub(crate) plan: Plan,
    ghost limits: { Limits (meaning_of rule) (contents plan) } by { Limits-prop (meaning_of rule) (contents plan) },
}
