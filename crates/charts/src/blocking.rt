// Which locks keep a caller waiting.
ghost use Rattle.std.specs.Prelude.{◌≡◌};
ghost use Rattle.plans.specs.Plans.{contents};
ghost use Rattle.protocol.specs.Machine.{newest_task};
ghost use Rattle.charts.specs.Users.{blocks_under};

use crate::chart::Chart;
use protocol::LockRecord;
use rules::LockRule;

// The task of the newest lock that blocks: another task has it, and its ceiling is at most the caller's own number.
// The rule and the chart come apart, as a manager holds them: it is defined by the two, and has no `Planned` to lend.
pub fn newest_blocker<R: LockRule>(
    rule: &R,
    chart: &Chart,
    locks: &[LockRecord],
    task: u8,
) -> Option<u8>
    ensures { result ≡ newest_task (blocks_under (R.meaning rule.now) (contents chart.now.plan).uses task) locks.now }
{
    locks
        .iter()
        .rev()
        .find(|r| r.task != task && chart.ceiling(rule, r.object, r.mode) <= task)
        .map(|r| r.task)
}
