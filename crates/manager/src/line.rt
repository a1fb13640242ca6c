// Calls as values, one alone or one after the other.
ghost use Rattle.std.specs.Prelude.{◌≡◌, min, ◌∷◌, ◌++◌, length, take, drop, Ok};
ghost use Rattle.protocol.specs.Machine.{step};
ghost use Rattle.manager.specs.Runs.{LeadsOn, final, answers_to, line_with};
ghost use Rattle.manager.specs.View.{setup_of, view, Does, lock_answer, answer_of};

use crate::answers::Locked;
use crate::manager::Manager;
use plans::Refusal;
use protocol::{Answer, Call};
use rules::LockRule;

impl From<Locked> for Answer {
    ghost from_gives = { λ locked answer. answer ≡ lock_answer (Ok locked) };

    fn from(locked: Locked) -> Answer {
        match locked {
            Locked::Granted => Answer::Granted,
            Locked::Wait(holder) => Answer::Wait(holder),
        }
    }
}

impl<'a, R: LockRule> Manager<'a, R> {
    // Makes the call, where it is not refused.
    fn try_call(&mut self, cells: &mut [i32], call: Call) -> Result<Answer, Refusal>
        ensures { Does R.meaning (λ setup s. step setup s call) self.old self.new cells.old cells.new (answer_of result) }
    {
        match call {
            Call::Arrive { task } => self.arrive(task).map(|()| Answer::Open),
            Call::Lock { task, object, mode } => self.lock(task, object, mode).map(Answer::from),
            Call::Read { task, object, part } => {
                self.read(cells, task, object, part).map(Answer::Value)
            }
            Call::Write {
                task,
                object,
                part,
                value,
            } => self
                .write(cells, task, object, part, value)
                .map(|()| Answer::Written),
            Call::Close { task } => self.close(task).map(Answer::Closed),
            Call::Drop { task } => self.drop_task(cells, task).map(Answer::Dropped),
            Call::Tick => self.tick().map(|ran| ran.map_or(Answer::Idle, Answer::Ran)),
        }
    }

    // Makes the call. Whatever calls were made since the making, all laws hold of their line with this one.
    pub fn call(&mut self, cells: &mut [i32], call: Call) -> Answer
        ensures does { Does R.meaning (λ setup s. step setup s call) self.old self.new cells.old cells.new result }
        ensures laws { LeadsOn (setup_of R.meaning self.old) (view self.old cells.old) (view self.new cells.new) (λ line. record { call = call; answer = result } ∷ line) }
    {
        self.try_call(cells, call).unwrap_or_else(Answer::Refused)
    }

    // Makes the calls in their order, as many as there is room for answers, and says how many they were.
    pub fn play(&mut self, cells: &mut [i32], calls: &[Call], answers: &mut [Answer]) -> usize
        ensures count { result ≡ min (length calls.now) (length answers.old) }
        ensures answers { answers.new ≡ answers_to (setup_of R.meaning self.old) (view self.old cells.old) (take result calls.now) ++ drop result answers.old }
        ensures state { view self.new cells.new ≡ final (setup_of R.meaning self.old) (view self.old cells.old) (take result calls.now) }
        ensures setup { setup_of R.meaning self.new ≡ setup_of R.meaning self.old }
        ensures laws { LeadsOn (setup_of R.meaning self.old) (view self.old cells.old) (view self.new cells.new) (line_with (setup_of R.meaning self.old) (view self.old cells.old) (take result calls.now)) }
    {
        let calls = &calls[..calls.len().min(answers.len())];
        // Not `answers.iter_mut().zip(calls)`: a proof follows `iter_mut` alone or under `enumerate`, and knows nothing of the answers after a `zip`.
        for (i, call) in calls.iter().enumerate() {
            answers[i] = self.call(cells, *call);
        }
        calls.len()
    }
}
