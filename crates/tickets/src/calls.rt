// Calls with a ticket: each is the numbered call of the ticket's task.
ghost use Rattle.std.specs.Prelude.{◌≡◌, List, ℤ, Ok, Err, MatchResult};
ghost use Rattle.protocol.specs.Machine.{arrive, lock, read, write, close, drop_task};
ghost use Rattle.manager.specs.View.{Does, lock_answer, read_answer, write_answer};
ghost use Rattle.tickets.specs.Tickets.{arrive_answer, Given, close_answer, drop_answer, GivenBack};

use crate::ticket::Ticket;
use manager::{Locked, Manager};
use plans::Refusal;
use protocol::Account;
use rules::LockRule;

impl Ticket {
    // An instance of the task begins, and the ticket stands for it.
    pub fn arrive<R: LockRule>(manager: &mut Manager<'_, R>, task: u8) -> Result<Ticket, Refusal>
        ensures does { (cells : List ℤ) → Does R.meaning (λ setup s. arrive setup s task) manager.old manager.new cells cells (arrive_answer result) }
        ensures ticket { Given task result }
    {
        manager.arrive(task)?;
        Ok(Ticket { task, spent: false })
    }

    // The task that it is a ticket of.
    pub fn task(&self) -> u8
        ensures { result ≡ self.now.task }
    {
        self.task
    }

    // The numbered lock of its task.
    pub fn lock<R: LockRule>(
        &self,
        manager: &mut Manager<'_, R>,
        object: u8,
        mode: u8,
    ) -> Result<Locked, Refusal>
        ensures { (cells : List ℤ) → Does R.meaning (λ setup s. lock setup s self.now.task object mode) manager.old manager.new cells cells (lock_answer result) }
    {
        manager.lock(self.task, object, mode)
    }

    // The numbered read of its task.
    pub fn read<R: LockRule>(
        &self,
        manager: &Manager<'_, R>,
        cells: &[i32],
        object: u8,
        part: u8,
    ) -> Result<i32, Refusal>
        ensures { Does R.meaning (λ setup s. read setup s self.now.task object part) manager.now manager.now cells.now cells.now (read_answer result) }
    {
        manager.read(cells, self.task, object, part)
    }

    // The numbered write of its task.
    pub fn write<R: LockRule>(
        &self,
        manager: &mut Manager<'_, R>,
        cells: &mut [i32],
        object: u8,
        part: u8,
        value: i32,
    ) -> Result<(), Refusal>
        ensures { Does R.meaning (λ setup s. write setup s self.now.task object part value) manager.old manager.new cells.old cells.new (write_answer result) }
    {
        manager.write(cells, self.task, object, part, value)
    }

    // The numbered close of its task; a refused one gives the ticket back.
    pub fn close<R: LockRule>(
        self,
        manager: &mut Manager<'_, R>,
    ) -> Result<Account, (Refusal, Ticket)>
        ensures does { (cells : List ℤ) → Does R.meaning (λ setup s. close setup s self.task) manager.old manager.new cells cells (close_answer result) }
        ensures ticket { GivenBack self result }
    {
        let closed = manager.close(self.task);
        self.end_by(closed)
    }

    // The numbered drop of its task; a refused one gives the ticket back.
    pub fn drop_task<R: LockRule>(
        self,
        manager: &mut Manager<'_, R>,
        cells: &mut [i32],
    ) -> Result<Account, (Refusal, Ticket)>
        ensures does { Does R.meaning (λ setup s. drop_task setup s self.task) manager.old manager.new cells.old cells.new (drop_answer result) }
        ensures ticket { GivenBack self result }
    {
        let dropped = manager.drop_task(cells, self.task);
        self.end_by(dropped)
    }

    // Always accepted. The task stays as it is, for numbered calls, and the manager is not even asked.
    pub fn surrender(self) -> u8
        ensures { result ≡ self.task }
    {
        let task = self.task;
        self.spend();
        task
    }

    fn spend(mut self) {
        self.spent = true;
    }

    // A call that was accepted ends the ticket; one that was refused gives it back.
    fn end_by(self, called: Result<Account, Refusal>) -> Result<Account, (Refusal, Ticket)>
        ensures { MatchResult called (λ account. result ≡ Ok account) (λ refusal. result ≡ Err (refusal, self)) }
    {
        match called {
            Ok(account) => {
                self.spend();
                Ok(account)
            }
            Err(refusal) => Err((refusal, self)),
        }
    }
}
