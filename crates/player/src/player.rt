// Playing a tape after its plan onto a sheet. docs/TAPE.md has the format.
ghost use Rattle.std.specs.Prelude.{◌≡◌, ◌*◌, ◌≤◌, ◌==◌, length, MatchResult};
ghost use Rattle.std.specs.List.{count_by};
ghost use Rattle.plans.specs.Plans.{contents};
ghost use Rattle.player.specs.Players.{setup, state};
ghost use Rattle.tape.specs.Items.{entry};
ghost use Rattle.tape.specs.Tapes.{lines, entries};
ghost use Rattle.sheets.specs.Sheets.{Put};
ghost use Rattle.player.specs.Playing.{outcome, play_sheet, play_state, tape_sheet, play_input, Plays, PlayLaws};

use charts::Planned;
use manager::Manager;
use plans::Refusal;
use protocol::{Answer, CELLS, Image, LockRecord};
use rules::LockRule;
use sheets::{MOST_LINE, write_line};
use tape::{Item, Tape};

// What one input may hold, so that a controller's buffer for it has a fixed size.
const MOST_INPUT: usize = 60_000;
// A sheet for so many lines takes 32,000 bytes.
const MOST_LINES: usize = 1_000;
// The lock records that a player lends its manager.
const LOCKS: usize = 64;
// The images that it lends it.
const IMAGES: usize = 64;

fn count_ends(tape: &[u8]) -> usize
    ensures { result ≡ count_by (λ byte. byte == 10) tape.now }
{
    tape.iter().filter(|byte| **byte == b'\n').count()
}

#[tactic(auto, using(crate::proofs::Counting::count_open, crate::proofs::Counting::count_closed))]
fn count_lines(tape: &[u8]) -> usize
    ensures { result ≡ length (lines tape.now) }
{
    let ends = count_ends(tape);
    match tape {
        // The last line may lack its end.
        [.., last] if *last != b'\n' => ends + 1,
        _ => ends,
    }
}

// A manager, and the cells that it works on.
#[derive(Drop)]
struct Player<'a, R: LockRule> {
    manager: Manager<'a, R>,
    cells: [i32; CELLS],
}

impl<R: LockRule> Player<'_, R> {
    // An unreadable line is answered by a refusal, and makes no call.
    fn play_item(&mut self, item: Item<'_>) -> Answer
        ensures answer { result ≡ (outcome (setup R.meaning self.old) (state self.old) (entry item.entry)).answer }
        ensures state { state self.new ≡ (outcome (setup R.meaning self.old) (state self.old) (entry item.entry)).left }
        ensures setup { setup R.meaning self.new ≡ setup R.meaning self.old }
    {
        match item {
            Ok(call) => self.manager.call(&mut self.cells, call),
            Err(_) => Answer::Refused(Refusal::UnreadableLine),
        }
    }

    fn play_lines(&mut self, tape: &[u8], sheet: &mut [u8]) -> Result<usize, Refusal>
        requires { 32 * length (lines tape.now) ≤ length sheet.old }
        ensures sheet { MatchResult result (λ n. Put sheet.old 0 (play_sheet (setup R.meaning self.old) (state self.old) (entries 0 (lines tape.now))) sheet.new n) (λ _. ⊥) }
        ensures state { state self.new ≡ play_state (setup R.meaning self.old) (state self.old) (entries 0 (lines tape.now)) }
        ensures setup { setup R.meaning self.new ≡ setup R.meaning self.old }
    {
        // The place is kept by hand, as the contract of `Write for &mut [u8]` does not say what the written bytes hold.
        let mut at = 0;
        for item in Tape::new(tape) {
            let answer = self.play_item(item);
            // No line is refused, as the sheet has room for all of them.
            at = write_line(sheet, at, answer, self.manager.running())?;
        }
        Ok(at)
    }
}

fn play_tape<R: LockRule + Drop>(
    planned: Planned<R>,
    tape: &[u8],
    sheet: &mut [u8],
) -> Result<usize, Refusal>
    requires { 32 * length (lines tape.now) ≤ length sheet.old }
    ensures { MatchResult result (λ n. Put sheet.old 0 (tape_sheet (R.meaning planned.rule) (contents planned.chart.plan) tape.now) sheet.new n) (λ _. ⊥) }
{
    let mut cells = [0; CELLS];
    let mut locks = [LockRecord::default(); LOCKS];
    let mut journal = [Image::default(); IMAGES];
    let manager = Manager::make_from(planned, &mut cells, &mut locks, &mut journal)?;
    let mut player = Player { manager, cells };
    player.play_lines(tape, sheet)
}

// Plays the tape that stands after the plan. The answer is how many bytes of the sheet were written; a refused play leaves it as it was.
pub fn play<R: LockRule + Drop>(rule: R, input: &[u8], sheet: &mut [u8]) -> Result<usize, Refusal>
    ensures sheet { Plays (play_input (R.meaning rule) input.now (length sheet.old)) sheet.old sheet.new result }
    ensures laws { PlayLaws (R.meaning rule) input.now }
{
    if input.len() > MOST_INPUT {
        return Err(Refusal::CountOutOfLimits);
    }
    let (planned, tape) = Planned::read(rule, input)?;
    let count = count_lines(tape);
    if count > MOST_LINES {
        return Err(Refusal::CountOutOfLimits);
    }
    if sheet.len() < MOST_LINE * count {
        return Err(Refusal::ShortSheet);
    }
    play_tape(planned, tape, sheet)
}
