// Reports at the edges: the worked plan with one byte changed, some other plans, and what is printed then.
#![tactic(auto)]

use report_pages::page_on;
use reports::report_on;
use std::io::Write;
use std::{array, io};

// The read/write rule's byte and the worked plan.
const HEADING: [u8; 64] = [
    2, 2, 0, 0, 3, 132, 0, 0, 3, 137, 0, 0, 0, 0, 0, 0, 0, 0, 0, 0, 0, 0, 0, 0, 0, 0, 0, 0, 0, 0,
    0, 0, 0, 0, 3, 0, 10, 0, 2, 0, 20, 0, 4, 0, 50, 0, 6, 0, 5, 0, 0, 0, 1, 0, 1, 1, 1, 0, 2, 0, 0,
    2, 1, 1,
];

// The same with every use in mode 0, under the exclusive rule.
const ALONE: [u8; 64] = [
    1, 2, 0, 0, 3, 132, 0, 0, 3, 137, 0, 0, 0, 0, 0, 0, 0, 0, 0, 0, 0, 0, 0, 0, 0, 0, 0, 0, 0, 0,
    0, 0, 0, 0, 3, 0, 10, 0, 2, 0, 20, 0, 4, 0, 50, 0, 6, 0, 5, 0, 0, 0, 1, 0, 0, 1, 1, 0, 2, 0, 0,
    2, 1, 0,
];

// Which byte is changed, and to what.
const CHANGES: [(usize, u8); 20] = [
    (0, 0),
    (0, 3),
    (0, 1),
    (1, 0),
    (1, 33),
    (34, 0),
    (34, 17),
    (36, 0),
    (38, 0),
    (38, 11),
    (38, 10),
    (40, 9),
    (40, 10),
    (47, 2),
    (48, 6),
    (48, 4),
    (49, 3),
    (50, 2),
    (51, 2),
    (58, 0),
];

// Three objects and two tasks, the second with 700 ticks; the first object is used by nobody, the third is only read.
const MORE_OBJECTS: &[u8; 70] = b"\
    \x02\x03\
    \x00\x00\x00\x01\xff\xff\xff\xfe\x00\x01\x00\x00\x80\x00\x00\x00\
    \x00\x00\x00\x00\x00\x00\x00\x00\x00\x00\x00\x00\x00\x00\x00\x00\
    \x00\x00\x00\x07\x00\x00\x00\x07\x00\x00\x00\x07\x00\x00\x00\x07\
    \x02\
    \x01\x2c\x00\x02\x03\xe8\x02\xbc\
    \x00\x03\x00\x01\x00\x01\x01\x01\x00\x02\x00";

// Two objects and twelve tasks under the exclusive rule, the uses from the last task to the first.
const TWELVE_TASKS: &[u8; 97] = b"\
    \x01\x02\
    \x00\x00\x00\x00\x00\x00\x00\x00\x00\x00\x00\x00\x00\x00\x00\x00\
    \x00\x00\x00\x05\x00\x00\x00\x06\x00\x00\x00\x07\x00\x00\x00\x08\
    \x0c\
    \x00\x0a\x00\x01\x00\x0b\x00\x02\x00\x0c\x00\x03\x00\x0d\x00\x04\
    \x00\x0e\x00\x05\x00\x0f\x00\x06\x00\x10\x00\x07\x00\x11\x00\x08\
    \x00\x12\x00\x09\x00\x13\x00\x0a\x00\x14\x00\x0b\x00\x15\x00\x0c\
    \x00\x04\x0b\x01\x00\x0a\x00\x00\x03\x01\x00\x00\x00\x00";

// One object and one task, which does not use it.
const NO_USES: &[u8; 25] = b"\
    \x02\x01\
    \x00\x00\x00\x00\x00\x00\x00\x00\x00\x00\x00\x00\x00\x00\x00\x00\
    \x01\
    \x00\x09\x00\x09\
    \x00\x00";

// The longest plan that is accepted: a rule byte, 32 objects, 16 tasks, 512 uses.
const LONGEST: usize = 2117;

// The longest plan byte by byte: smallest start values, longest periods and budgets, every task uses every object in mode 1.
fn longest_byte(at: usize) -> u8 {
    match at {
        0 => 2,
        1 => 32,
        2..=513 if at % 4 == 2 => 128,
        2..=513 => 0,
        514 => 16,
        515..=578 => 255,
        579 => 2,
        580 => 0,
        _ => use_byte(at - 581),
    }
}

// Three bytes for each use: its task, its object, its mode.
fn use_byte(at: usize) -> u8 {
    let number = at / 3;
    match at % 3 {
        0 => (number / 32 % 16) as u8,
        1 => (number % 32) as u8,
        _ => 1,
    }
}

fn show_longest(rt: &HostRuntime) -> io::Result<()> {
    let input: [u8; LONGEST] = array::from_fn(longest_byte);
    // Shown from the page, which needs no memory; the `String` is made after that, and compared.
    let page = page_on(&input);
    let text = page.as_slice();
    println!(rt; "{} bytes, and at their end:", text.len())?;
    if let Some(line) = text.split_inclusive(|byte| *byte == b'\n').last() {
        rt.stdout().write_all(line)?;
    }
    compare(rt, &input, &report_on(rt.alloc(), &input)?)
}

// Says so where the report on a page is another than this one.
fn compare(rt: &HostRuntime, input: &[u8], text: &str) -> io::Result<()> {
    if page_on(input).as_slice() != text.as_bytes() {
        println!(rt; "the page says otherwise")?;
    }
    Ok(())
}

fn show(rt: &HostRuntime, input: &[u8]) -> io::Result<()> {
    let text = report_on(rt.alloc(), input)?;
    print!(rt; "{text}")?;
    compare(rt, input, &text)
}

fn main(rt: HostRuntime) -> io::Result<()> {
    println!(rt; "no byte at all")?;
    show(&rt, &[])?;
    println!(rt; "a rule and no plan")?;
    show(&rt, &[2])?;
    println!(rt; "every use in mode 0, exclusive")?;
    show(&rt, &ALONE)?;
    for (at, value) in CHANGES {
        println!(rt; "byte {at} is {value}")?;
        let mut input = HEADING;
        if let Some(byte) = input.get_mut(at) {
            *byte = value;
        }
        show(&rt, &input)?;
    }
    println!(rt; "more objects than tasks")?;
    show(&rt, MORE_OBJECTS)?;
    println!(rt; "twelve tasks")?;
    show(&rt, TWELVE_TASKS)?;
    println!(rt; "no uses")?;
    show(&rt, NO_USES)?;
    println!(rt; "the longest plan")?;
    show_longest(&rt)
}
