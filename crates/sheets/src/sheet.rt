// Writing the lines of a sheet into lent bytes.
ghost use Rattle.std.specs.Prelude.{◌≡◌, ◌+◌, ◌<◌, ◌≤◌, length, MatchResult};
ghost use Rattle.std.specs.Fmt.{signed_decimal};
ghost use Rattle.plans.specs.declared.refusal.Refusal.TheVariants.{ShortSheet};
ghost use Rattle.sheets.specs.Sheets.{Writes, sheet_line, SheetLaws, SheetExamples};

use crate::line::Line;
use plans::Refusal;
use protocol::Answer;

// The longest line is `dropped 65535 65535 255 run 255` with its end.
pub const MOST_LINE: usize = 32;

// The longest number is -2147483648.
pub const MOST_NUMBER: usize = 11;

// There is room for `most` bytes from `at` on, or the sheet is short.
fn room(sheet: &[u8], at: usize, most: usize) -> Result<(), Refusal>
    ensures { MatchResult result (λ fits. at + most ≤ length sheet.now) (λ why. (why ≡ ShortSheet) × (length sheet.now < at + most)) }
{
    let len = sheet.len();
    if len < most || len - most < at {
        return Err(Refusal::ShortSheet);
    }
    Ok(())
}

// Writes the line of an answer, and of the task that runs after it, from `at` on. The answer, here and below, is the place behind it.
pub fn write_line(
    sheet: &mut [u8],
    at: usize,
    answer: Answer,
    running: Option<u8>,
) -> Result<usize, Refusal>
    ensures line { Writes 32 sheet.old at (sheet_line answer running) sheet.new result }
    ensures law { SheetLaws }
    ensures examples { SheetExamples }
{
    room(sheet, at, MOST_LINE)?;
    let mut line = Line { sheet, end: at };
    line.line(answer, running);
    Ok(line.end)
}

// Writes a number from `at` on.
pub fn write_number(sheet: &mut [u8], at: usize, number: i32) -> Result<usize, Refusal>
    ensures { Writes 11 sheet.old at (signed_decimal number) sheet.new result }
{
    room(sheet, at, MOST_NUMBER)?;
    let mut text = Line { sheet, end: at };
    text.number(number);
    Ok(text.end)
}
