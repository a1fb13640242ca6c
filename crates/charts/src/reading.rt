// Reading a plan, and what is kept of it at hand.
ghost use Rattle.std.specs.Prelude.{◌≡◌, IfOk};
ghost use Rattle.plans.specs.Limits.{Limits};
ghost use Rattle.plans.specs.Plans.{contents};
ghost use Rattle.plans.specs.Reading.{read_plan, read_whole};
ghost use Rattle.plans.specs.Results.{Reads, and_rest};

use crate::chart::Chart;
use crate::lookups::users_of;
use crate::planned::Planned;
use plans::{Plan, Refusal};
use rules::LockRule;

impl<R: LockRule + Drop> Planned<R> {
    fn of(rule: R, plan: Plan) -> Planned<R>
        requires { Limits (R.meaning rule) (contents plan) }
        ensures rule { result.rule ≡ rule }
        ensures plan { result.chart.plan ≡ plan }
    {
        let users = users_of(plan.uses());
        Planned {
            rule,
            chart: Chart { plan, users },
        }
    }

    // The plan at the front of the input, and the input after it.
    pub fn read<'a>(rule: R, input: &'a [u8]) -> Result<(Planned<R>, &'a [u8]), Refusal>
        ensures answer { Reads (and_rest (λ p. contents p.chart.plan)) result (read_plan (R.meaning rule) input.now) }
        ensures rule { IfOk result (λ p. p.0.rule ≡ rule) }
        ensures limits { IfOk result (λ p. Limits (R.meaning rule) (contents p.0.chart.plan)) }
    {
        let (plan, rest) = Plan::read(&rule, input)?;
        Ok((Planned::of(rule, plan), rest))
    }

    // The plan, where it is all of the input.
    pub fn read_whole(rule: R, input: &[u8]) -> Result<Planned<R>, Refusal>
        ensures answer { Reads (λ p. contents p.chart.plan) result (read_whole (R.meaning rule) input.now) }
        ensures rule { IfOk result (λ p. p.rule ≡ rule) }
        ensures limits { IfOk result (λ p. Limits (R.meaning rule) (contents p.chart.plan)) }
    {
        let plan = Plan::read_whole(&rule, input)?;
        Ok(Planned::of(rule, plan))
    }

    // What it was read from: the rule, and the plan with what is kept of it.
    pub fn into_parts(self) -> (R, Chart)
        ensures { result ≡ (self.rule, self.chart) }
    {
        (self.rule, self.chart)
    }
}
