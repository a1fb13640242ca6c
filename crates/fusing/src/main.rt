// A fusing task's code with a ticket: it arrives, locks the heading, writes it and closes. Every way out ends the ticket.
#![tactic(auto)]

use manager::{Locked, Manager};
use plans::Refusal;
use protocol::{Account, CELLS, Image, LockRecord};
use rules::{LockRule, ReadWrite};
use std::io;
use tickets::Ticket;

// Fusing in examples/heading.plan.
const FUSING: u8 = 1;
// The object that it writes.
const HEADING: u8 = 0;
// The part of it that it writes.
const COURSE: u8 = 1;
// The mode that lets it.
const WRITE: u8 = 1;

// The worked plan, examples/heading.plan.
const PLAN: [u8; 63] = [
    2, 0, 0, 3, 132, 0, 0, 3, 137, 0, 0, 0, 0, 0, 0, 0, 0, 0, 0, 0, 0, 0, 0, 0, 0, 0, 0, 0, 0, 0,
    0, 0, 0, 3, 0, 10, 0, 2, 0, 20, 0, 4, 0, 50, 0, 6, 0, 5, 0, 0, 0, 1, 0, 1, 1, 1, 0, 2, 0, 0, 2,
    1, 1,
];

// Logging in the same plan.
const LOGGING: u8 = 2;
// The mode in which it reads the heading.
const READ: u8 = 0;

// How one turn of fusing came out. Both ends are good ones, so it is no Result of its own.
enum Fused {
    Done(Account),
    // For the task with this number; fusing is then resumed by numbered calls.
    Waits(u8),
}

// The cells go beside the manager, as a ticket's calls take them.
fn fuse<R: LockRule>(
    manager: &mut Manager<'_, R>,
    cells: &mut [i32],
    course: i32,
) -> Result<Fused, Refusal> {
    let ticket = Ticket::arrive(manager, FUSING)?;
    match ticket.lock(manager, HEADING, WRITE) {
        Ok(Locked::Granted) => write_and_close(ticket, manager, cells, course),
        Ok(Locked::Wait(holder)) => {
            ticket.surrender();
            Ok(Fused::Waits(holder))
        }
        Err(refusal) => Err(give_up(ticket, manager, cells, refusal)),
    }
}

fn write_and_close<R: LockRule>(
    ticket: Ticket,
    manager: &mut Manager<'_, R>,
    cells: &mut [i32],
    course: i32,
) -> Result<Fused, Refusal> {
    let written = ticket.write(manager, cells, HEADING, COURSE, course);
    if let Err(refusal) = written {
        return Err(give_up(ticket, manager, cells, refusal));
    }
    match ticket.close(manager) {
        Ok(account) => Ok(Fused::Done(account)),
        Err((refusal, ticket)) => Err(give_up(ticket, manager, cells, refusal)),
    }
}

// What was written is put back; where even that is refused, the task is left to numbered calls.
fn give_up<R: LockRule>(
    ticket: Ticket,
    manager: &mut Manager<'_, R>,
    cells: &mut [i32],
    refusal: Refusal,
) -> Refusal {
    if let Err((_, ticket)) = ticket.drop_task(manager, cells) {
        ticket.surrender();
    }
    refusal
}

fn show(rt: &HostRuntime, fused: Result<Fused, Refusal>) -> io::Result<()> {
    match fused {
        Ok(Fused::Done(account)) => {
            println!(rt; "fused: used {}, lost {}", account.used, account.lost)
        }
        Ok(Fused::Waits(holder)) => println!(rt; "fusing waits for task {holder}"),
        Err(refusal) => println!(rt; "fusing is refused: {}", refusal.number()),
    }
}

// Fusing alone; then with logging in its way; then once more while it is still open.
fn try_fusing<R: LockRule>(
    rt: &HostRuntime,
    manager: &mut Manager<'_, R>,
    cells: &mut [i32],
) -> io::Result<()> {
    show(rt, fuse(manager, cells, 912))?;
    let _ = manager.arrive(LOGGING);
    let _ = manager.lock(LOGGING, HEADING, READ);
    show(rt, fuse(manager, cells, 915))?;
    show(rt, fuse(manager, cells, 918))?;
    if let Some(course) = cells.get(usize::from(COURSE)) {
        println!(rt; "the course is {course}")?;
    }
    Ok(())
}

fn run<R: LockRule + Drop>(rt: &HostRuntime, rule: R) -> io::Result<()> {
    let mut cells = [0i32; CELLS];
    let mut locks = [LockRecord::default(); 8];
    let mut journal = [Image::default(); 8];
    match Manager::make(rule, &PLAN, &mut cells, &mut locks, &mut journal) {
        Ok(mut manager) => try_fusing(rt, &mut manager, &mut cells),
        Err(refusal) => println!(rt; "no manager: {}", refusal.number()),
    }
}

fn main(rt: HostRuntime) -> io::Result<()> {
    run(&rt, ReadWrite)
}
