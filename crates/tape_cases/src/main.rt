// Tapes at the edges: what the player answers to every refusal that a tape can meet, and to lines that it cannot read.
#![tactic(auto)]

use player::play_numbered;
use std::io;
use std::io::Write;

// examples/heading.plan: its rows stand from byte 34 on, its uses from byte 48 on.
const HEADING: [u8; 63] = [
    2, 0, 0, 3, 132, 0, 0, 3, 137, 0, 0, 0, 0, 0, 0, 0, 0, 0, 0, 0, 0, 0, 0, 0, 0, 0, 0, 0, 0, 0,
    0, 0, 0, 3, 0, 10, 0, 2, 0, 20, 0, 4, 0, 50, 0, 6, 0, 5, 0, 0, 0, 1, 0, 1, 1, 1, 0, 2, 0, 0, 2,
    1, 1,
];

// Numbers that are not there, tasks that are open or do not run, uses and locks that are there or not, and parts that no lock covers.
const CALLS: &[u8] =
    b"A 3\nA 255\nA 1\nA 1\nA 2\nL 3 0 0\nL 1 2 0\nL 1 0 2\nL 2 0 0\nL 1 0 0\nL 1 0 1\nL 1 0 1\nR 1 0 4\nR 1 2 0\nR 2 0 0\nR 1 1 0\nR 1 0 1\nW 1 0 4 1\nW 1 1 0 1\nW 1 0 1 7\nW 1 0 1 9\nR 1 0 1\nX 1\nA 1\nL 1 0 1\nR 1 0 1\nF 3\nF 2\nX 3\nX 2\nF 1\nF 2\nT\n";

// Steering has a budget of 2 ticks.
const BUDGET: &[u8] = b"A 0\nT\nT\nT\n";

// One image more than there is room for; the drop puts all of them back.
const WRITES: usize = 65;

// No letter, other letters, too few or too many fields, spaces, and numbers that are ill-formed or too large.
const UNREADABLE: &[u8] =
    b"\n \nB 0\na 0\nA\nA \nA  0\nA 0 \n A 0\nA 0 0\nA 00\nA 01\nA -1\nA +1\nA 256\nA 1000\nAA 0\nT \nT 0\nL 0 0\nL 0 0 0 0\nR 0 0 x\nW 0 0 0\nW 0 0 0 -0\nW 0 0 0 --1\nW 0 0 0 2147483648\nW 0 0 0 -2147483649\nW 0 0 0 99999999999999999999\nW 0 0 0 -\nF\t0\n\xff\x00\nX 0\r\nA 0";

fn show(rt: &HostRuntime, name: &str, rule: i64, input: &[u8], room: usize) -> io::Result<()> {
    println!(rt; "-- {name}")?;
    let mut sheet = vec![in rt.alloc(); b'#'; room]?;
    match play_numbered(rule, input, &mut sheet) {
        Ok(written) => rt.stdout().write_all(&sheet[..written]),
        Err(refusal) => println!(rt; "refused {}", refusal.number()),
    }
}

// The worked plan with a tape behind it.
fn with_tape(rt: &HostRuntime, tape: &[u8]) -> io::Result<Vec<u8>> {
    let mut input = HEADING.to_vec(rt.alloc())?;
    input.extend_from_slice(tape)?;
    Ok(input)
}

fn many_writes(rt: &HostRuntime) -> io::Result<Vec<u8>> {
    let mut input = with_tape(rt, b"A 1\nL 1 0 1\n")?;
    for _ in 0..WRITES {
        input.extend_from_slice(b"W 1 0 1 4\n")?;
    }
    input.extend_from_slice(b"X 1\nA 1\nL 1 0 1\nR 1 0 1\n")?;
    Ok(input)
}

// The worked plan with one byte changed: each fault of a plan, before any line is played.
fn show_faults(rt: &HostRuntime) -> io::Result<()> {
    for (at, value) in [
        (0, 0),
        (0, 33),
        (37, 11),
        (39, 9),
        (50, 2),
        (57, 0),
        (47, 255),
        (46, 3),
    ] {
        let mut plan = HEADING;
        if let Some(byte) = plan.get_mut(at) {
            *byte = value;
        }
        println!(rt; "byte {at} is {value}")?;
        show(rt, "a fault of the plan", 2, &plan, 32)?;
    }
    Ok(())
}

fn main(rt: HostRuntime) -> io::Result<()> {
    show(&rt, "calls", 2, &with_tape(&rt, CALLS)?, 2048)?;
    show(&rt, "budget", 2, &with_tape(&rt, BUDGET)?, 128)?;
    show(&rt, "a full journal", 2, &many_writes(&rt)?, 4096)?;
    show(
        &rt,
        "unreadable lines",
        2,
        &with_tape(&rt, UNREADABLE)?,
        2048,
    )?;
    show(&rt, "no such rule", 3, &with_tape(&rt, BUDGET)?, 128)?;
    show(
        &rt,
        "a sheet that is too short",
        2,
        &with_tape(&rt, BUDGET)?,
        127,
    )?;
    show(&rt, "no tape", 2, &HEADING, 0)?;
    show_faults(&rt)?;
    let lines = vec![in rt.alloc(); b'\n'; 1001]?;
    show(&rt, "1,001 lines", 2, &with_tape(&rt, &lines)?, 32_032)?;
    let long = vec![in rt.alloc(); b'A'; 60_001]?;
    show(&rt, "60,001 bytes", 2, &long, 32)
}
