// The calls that end an instance, and the tick.
ghost use Rattle.std.specs.Prelude.{◌≡◌, List, ℤ};
ghost use Rattle.protocol.specs.Machine.{account_of, ended, close, drop_task, tick};
ghost use Rattle.manager.specs.Tests.{IsRunning};
ghost use Rattle.manager.specs.View.{setup_of, view, Does, close_answer, drop_answer, tick_answer};

use crate::calls::enough;
use crate::manager::Manager;
use crate::runner::end;
use plans::Refusal;
use protocol::Account;
use rules::LockRule;
use stacks::put_back_own;

impl<'a, R: LockRule> Manager<'a, R> {
    // The running task rests, its locks and images leave, and those that wait for it become ready. What it has used and lost.
    fn end(&mut self, task: u8) -> Account
        requires { IsRunning self.old.roster.tasks task }
        ensures account { (cells : List ℤ) → result ≡ account_of (view self.old cells) task }
        ensures state { (cells : List ℤ) (left : List ℤ) → view self.new left ≡ ended (view self.old cells) task left }
        ensures setup { setup_of R.meaning self.new ≡ setup_of R.meaning self.old }
    {
        let account = self.roster.task(task).into();
        end(&mut self.roster, task);
        self.locks.remove_of(task);
        self.journal.remove_of(task);
        account
    }

    // The running task's instance is done: what it wrote stays.
    pub fn close(&mut self, task: u8) -> Result<Account, Refusal>
        ensures { (cells : List ℤ) → Does R.meaning (λ setup s. close setup s task) self.old self.new cells cells (close_answer result) }
    {
        self.runs(task)?;
        Ok(self.end(task))
    }

    // The running task's instance is given up: what it wrote is put back.
    pub fn drop_task(&mut self, cells: &mut [i32], task: u8) -> Result<Account, Refusal>
        ensures { Does R.meaning (λ setup s. drop_task setup s task) self.old self.new cells.old cells.new (drop_answer result) }
    {
        enough(cells)?;
        self.runs(task)?;
        put_back_own(self.journal.as_slice(), task, cells);
        Ok(self.end(task))
    }

    // A tick of the clock is the running task's, as long as its budget lasts. The task that ran it.
    pub fn tick(&mut self) -> Result<Option<u8>, Refusal>
        ensures { (cells : List ℤ) → Does R.meaning tick self.old self.new cells cells (tick_answer result) }
    {
        let Some(task) = self.roster.running() else {
            return Ok(None);
        };
        let budget = self.chart.plan().budget(usize::from(task));
        self.roster.tick(task, budget)?;
        Ok(Some(task))
    }
}
