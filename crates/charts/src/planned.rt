// A rule, and a plan that was accepted under it.
ghost use Rattle.plans.specs.Kept.{Limits-prop};
ghost use Rattle.plans.specs.Limits.{Limits};
ghost use Rattle.plans.specs.Plans.{contents};

use crate::chart::Chart;
use rules::LockRule;

#[derive(Drop)]
pub struct Planned<R: LockRule> {
    pub(crate) rule: R,
    pub(crate) chart: Chart,
    ghost limits: { Limits (R.meaning rule) (contents chart.plan) } by { Limits-prop (R.meaning rule) (contents chart.plan) },
}
