// Prints a plan's ceilings and bounds, each with the reason for the number. Input: a rule byte, then the plan.
#![tactic(auto)]

use input::read_past;
use report_pages::page_on;
use std::io;
use std::io::Write;

// A rule byte and the longest plan: 1 + (1 + 32 × 16) + (1 + 16 × 4) + (2 + 512 × 3) bytes. One byte more is bytes after the plan, and so are many.
const MOST_BYTES: usize = 2117;

fn main(rt: HostRuntime) -> io::Result<()> {
    let input = read_past(&rt, MOST_BYTES)?;
    rt.stdout().write_all(page_on(&input).as_slice())
}
