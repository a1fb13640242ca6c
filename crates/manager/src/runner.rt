// What becomes of the running task. It is ready, so it may be told to wait, and may end.
ghost use Rattle.std.specs.Prelude.{◌≡◌, map};
ghost use Rattle.protocol.specs.Machine.{change, stand, wake};
ghost use Rattle.protocol.specs.declared.words.Standing.TheVariants.{Resting, Waiting};
ghost use Rattle.roster.specs.Records.{tasks_of};
ghost use Rattle.manager.specs.Tests.{IsRunning};

use roster::{Roster, Turn};

#[tactic(auto, using(crate::proofs::Running::may_wait))]
pub(crate) fn wait(roster: &mut Roster, task: u8, holder: u8)
    requires { IsRunning (tasks_of roster.old) task }
    ensures { tasks_of roster.new ≡ change (stand (Waiting holder)) (tasks_of roster.old) task }
{
    roster.turn(task, Turn::Wait(holder)).unwrap();
}

// Those that wait for it become ready.
#[tactic(auto, using(crate::proofs::Running::may_end))]
pub(crate) fn end(roster: &mut Roster, task: u8)
    requires { IsRunning (tasks_of roster.old) task }
    ensures { tasks_of roster.new ≡ change (stand Resting) (map (wake task) (tasks_of roster.old)) task }
{
    roster.wake(task);
    roster.turn(task, Turn::End).unwrap();
}
