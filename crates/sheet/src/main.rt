// Plays a tape: reads a rule byte, a plan and its tape, and prints the sheet, or `refused` and the number.
#![tactic(auto)]

ghost use Rattle.std.specs.Prelude.{length};
ghost use Rattle.player.specs.Playing.{Plays};
ghost use Rattle.sheet.specs.Inputs.{play_bytes};

use input::read_past;
use plans::Refusal;
use player::play_numbered;
use std::io;
use std::io::Write;

// A rule byte and the longest input. One byte more is refused, and so are many.
const MOST_BYTES: usize = 60_001;
// 32 bytes for each of 1,000 lines.
const SHEET: usize = 32_000;

fn play_input(input: &[u8], sheet: &mut [u8]) -> Result<usize, Refusal>
    ensures { Plays (play_bytes input.now (length sheet.old)) sheet.old sheet.new result }
{
    let [rule, rest @ ..] = input else {
        return Err(Refusal::NumberNotThere);
    };
    play_numbered(i64::from(*rule), rest, sheet)
}

fn main(rt: HostRuntime) -> io::Result<()> {
    let input = read_past(&rt, MOST_BYTES)?;
    let mut sheet = vec![in rt.alloc(); 0u8; SHEET]?;
    match play_input(&input, &mut sheet) {
        Ok(written) => rt.stdout().write_all(&sheet[..written]),
        Err(refusal) => println!(rt; "refused {}", refusal.number()),
    }
}
