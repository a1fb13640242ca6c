// The calls: each answers and leaves what the machine says.
ghost use Rattle.std.specs.Prelude.{◌≡◌, ◌<◌, List, length, ℤ, IfOk, OnOk};
ghost use Rattle.protocol.specs.Machine.{cell_of, Outcome, arrive, lock, read, write};
ghost use Rattle.manager.specs.Tests.{IsRunning, after, asked, few, own, reach};
ghost use Rattle.manager.specs.View.{setup_of, view, Does, arrive_answer, lock_answer, read_answer, write_answer};

use crate::answers::Locked;
use crate::manager::Manager;
use crate::runner::wait;
use charts::{holds, may_read, may_write, newest_blocker};
use plans::Refusal;
use protocol::{CELLS, Image, LockRecord};
use roster::Turn;
use rules::{LockRule, PARTS};

// There are 128 cells.
pub(crate) fn enough(cells: &[i32]) -> Result<(), Refusal>
    ensures { result ≡ few cells.now }
{
    if cells.len() < CELLS {
        return Err(Refusal::FewCells);
    }
    Ok(())
}

impl<'a, R: LockRule> Manager<'a, R> {
    // A new instance of the task begins.
    pub fn arrive(&mut self, task: u8) -> Result<(), Refusal>
        ensures { (cells : List ℤ) → Does R.meaning (λ setup s. arrive setup s task) self.old self.new cells cells (arrive_answer result) }
    {
        if !self.chart.has_task(task) {
            return Err(Refusal::NumberNotThere);
        }
        self.roster
            .turn(task, Turn::Arrive)
            .map_err(|_| Refusal::AlreadyOpen)
    }

    // The task may make a call of its own: it is there, and it runs.
    pub(crate) fn runs(&self, task: u8) -> Result<(), Refusal>
        ensures answer { result ≡ own (setup_of R.meaning self.now) self.now.roster.tasks task }
        ensures runs { OnOk result (IsRunning self.now.roster.tasks task) }
    {
        if !self.chart.has_task(task) {
            return Err(Refusal::NumberNotThere);
        }
        if !self.roster.is_running(task) {
            return Err(Refusal::NotRunning);
        }
        Ok(())
    }

    // The task may ask for the lock: then it runs, and waits or is granted.
    fn may_ask(&self, wanted: LockRecord) -> Result<(), Refusal>
        ensures lock { (cells : List ℤ) → lock (setup_of R.meaning self.now) (view self.now cells) wanted.task wanted.object wanted.mode ≡ after (view self.now cells) result (asked (setup_of R.meaning self.now) (view self.now cells) wanted) }
        ensures runs { OnOk result (IsRunning self.now.roster.tasks wanted.task) }
    {
        let LockRecord { task, object, mode } = wanted;
        if !self.chart.has_object(object) || mode >= self.rule.modes() {
            return Err(Refusal::NumberNotThere);
        }
        self.runs(task)?;
        if !self.chart.has_use(task, object, mode) {
            return Err(Refusal::NoSuchUse);
        }
        if holds(self.locks.as_slice(), task, object, mode) {
            return Err(Refusal::AlreadyHeld);
        }
        Ok(())
    }

    // The running task waits for who has the newest blocking lock; where there is none, its own lock becomes the newest.
    fn wait_or_grant(&mut self, wanted: LockRecord) -> Result<Locked, Refusal>
        requires { IsRunning self.old.roster.tasks wanted.task }
        ensures { (cells : List ℤ) → Does R.meaning (λ setup s. asked setup s wanted) self.old self.new cells cells (lock_answer result) }
    {
        let locks = self.locks.as_slice();
        match newest_blocker(&self.rule, &self.chart, locks, wanted.task) {
            Some(holder) => {
                wait(&mut self.roster, wanted.task, holder);
                Ok(Locked::Wait(holder))
            }
            None => {
                self.locks.push(wanted).map_err(|_| Refusal::LocksFull)?;
                Ok(Locked::Granted)
            }
        }
    }

    // The running task asks for an object in a mode.
    pub fn lock(&mut self, task: u8, object: u8, mode: u8) -> Result<Locked, Refusal>
        ensures { (cells : List ℤ) → Does R.meaning (λ setup s. lock setup s task object mode) self.old self.new cells cells (lock_answer result) }
    {
        let wanted = LockRecord { task, object, mode };
        self.may_ask(wanted)?;
        self.wait_or_grant(wanted)
    }

    // The cell of a part that the task may reach: there are enough cells, the numbers are there, and the task runs.
    // The numbers come one by one, here and in the calls, as tapes and tickets have them.
    fn reach(&self, cells: &[i32], task: u8, object: u8, part: u8) -> Result<u8, Refusal>
        ensures tests { (next : Outcome) → reach (setup_of R.meaning self.now) (view self.now cells.now) task object part next ≡ after (view self.now cells.now) result next }
        ensures cell { IfOk result (λ cell. (cell ≡ cell_of object part) × (cell < length cells.now)) }
    {
        enough(cells)?;
        if !self.chart.has_object(object) || part >= PARTS {
            return Err(Refusal::NumberNotThere);
        }
        self.runs(task)?;
        Ok(PARTS * object + part)
    }

    // The running task reads a part of an object.
    pub fn read(&self, cells: &[i32], task: u8, object: u8, part: u8) -> Result<i32, Refusal>
        ensures { Does R.meaning (λ setup s. read setup s task object part) self.now self.now cells.now cells.now (read_answer result) }
    {
        let cell = self.reach(cells, task, object, part)?;
        if !may_read(&self.rule, self.locks.as_slice(), task, object, part) {
            return Err(Refusal::NotCovered);
        }
        Ok(cells[usize::from(cell)])
    }

    // The running task writes a part of an object; what the cell held goes into the journal.
    pub fn write(
        &mut self,
        cells: &mut [i32],
        task: u8,
        object: u8,
        part: u8,
        value: i32,
    ) -> Result<(), Refusal>
        ensures { Does R.meaning (λ setup s. write setup s task object part value) self.old self.new cells.old cells.new (write_answer result) }
    {
        let cell = self.reach(cells, task, object, part)?;
        if !may_write(&self.rule, self.locks.as_slice(), task, object, part) {
            return Err(Refusal::NotCovered);
        }
        let old = cells[usize::from(cell)];
        self.journal
            .push(Image { task, cell, old })
            .map_err(|_| Refusal::JournalFull)?;
        cells[usize::from(cell)] = value;
        Ok(())
    }
}
