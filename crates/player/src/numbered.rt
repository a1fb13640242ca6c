// Playing under the rule with a number, as a program or C names it.
ghost use Rattle.std.specs.Prelude.{length};
ghost use Rattle.player.specs.Numbered.{play_numbered, NumberedLaws};
ghost use Rattle.player.specs.Playing.{Plays};

use crate::player::play;
use plans::Refusal;
use rules::NumberedRule;

// Plays the tape under rule 1, exclusive, or 2, read/write.
pub fn play_numbered(rule: i64, input: &[u8], sheet: &mut [u8]) -> Result<usize, Refusal>
    ensures sheet { Plays (play_numbered rule input.now (length sheet.old)) sheet.old sheet.new result }
    ensures laws { NumberedLaws rule input.now }
{
    play(NumberedRule::try_from(rule)?, input, sheet)
}
