// Making a manager.
ghost use Rattle.std.specs.Prelude.{◌≡◌, length, IfOk, if◌then◌else◌, Some, None, Ok, OnErr, nat_lt};
ghost use Rattle.plans.specs.Plans.{contents};
ghost use Rattle.plans.specs.Reading.{read_whole};
ghost use Rattle.plans.specs.declared.refusal.Refusal.TheVariants.{FewCells};
ghost use Rattle.protocol.specs.Lines.{Started};
ghost use Rattle.manager.specs.View.{setup_of, setup_with, view, refusal_of, make_refusal};

use crate::manager::Manager;
use charts::Planned;
use plans::Refusal;
use protocol::{Image, LockRecord};
use roster::Roster;
use rules::LockRule;
use stacks::Stack;

impl<'a, R: LockRule + Drop> Manager<'a, R> {
    // From a plan that was read: all tasks rest, nothing is held, and the objects' cells take their start values.
    pub fn make_from(
        planned: Planned<R>,
        cells: &mut [i32],
        locks: &'a mut [LockRecord],
        journal: &'a mut [Image],
    ) -> Result<Manager<'a, R>, Refusal>
        ensures answer { refusal_of result ≡ (if nat_lt (length cells.old) 128 then Some FewCells else None) }
        ensures setup { IfOk result (λ m. setup_of R.meaning m ≡ setup_with (R.meaning planned.rule) (contents planned.chart.plan) (length locks.old) (length journal.old)) }
        ensures started { IfOk result (λ m. Started (setup_of R.meaning m) cells.old (view m cells.new)) }
        ensures untouched { OnErr result (cells.new ≡ cells.old) }
    {
        let (rule, chart) = planned.into_parts();
        chart.start(cells)?;
        Ok(Manager {
            rule,
            chart,
            roster: Roster::all_resting(),
            locks: Stack::new(locks),
            journal: Stack::new(journal),
        })
    }

    // From a rule and the plan's bytes.
    pub fn make(
        rule: R,
        bytes: &[u8],
        cells: &mut [i32],
        locks: &'a mut [LockRecord],
        journal: &'a mut [Image],
    ) -> Result<Manager<'a, R>, Refusal>
        ensures answer { refusal_of result ≡ make_refusal (read_whole (R.meaning rule) bytes.now) cells.old }
        ensures plan { IfOk result (λ m. read_whole (R.meaning rule) bytes.now ≡ Ok (setup_of R.meaning m).plan) }
        ensures setup { IfOk result (λ m. setup_of R.meaning m ≡ setup_with (R.meaning rule) (setup_of R.meaning m).plan (length locks.old) (length journal.old)) }
        ensures started { IfOk result (λ m. Started (setup_of R.meaning m) cells.old (view m cells.new)) }
        ensures untouched { OnErr result (cells.new ≡ cells.old) }
    {
        let planned = Planned::read_whole(rule, bytes)?;
        Manager::make_from(planned, cells, locks, journal)
    }
}
