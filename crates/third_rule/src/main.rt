// A third lock rule through the same manager and player, with no line of them changed. What it plays is compared, and its laws come from the same contract.
#![tactic(auto)]

ghost use Rattle.protocol.specs.Laws.{LawsHold};
ghost use Rattle.third_rule.specs.ByPart.{by_part};
ghost use Rattle.std.proofs.Common.{rules};

use player::play;
use protocol::laws_hold;
use rules::LockRule;
use std::io;
use std::io::Write;

// A lock of one part, named by its number.
#[derive(Clone, Copy, Debug, PartialEq, Eq)]
struct ByPart;

impl LockRule for ByPart {
    ghost meaning = { λ _. by_part };

    ghost lawful = { Prim.search rules };

    fn modes(&self) -> u8 {
        4
    }

    fn reads(&self, mode: u8, part: u8) -> bool {
        mode < 4 && part == mode
    }

    // What it reads it also writes.
    fn writes(&self, mode: u8, part: u8) -> bool {
        self.reads(mode, part)
    }

    // A held part also keeps those off that want a part above it.
    fn clashes(&self, held: u8, wanted: u8) -> bool {
        wanted < 4 && held <= wanted
    }
}

// All of the laws over lines of calls hold under it.
fn keeps_the_laws(rule: ByPart)
    ensures { LawsHold by_part }
{
    laws_hold::<ByPart>();
}

// One object; three tasks of period 9 and budget 3; task 0 uses part 0 and part 2, task 1 part 1, task 2 part 1 and part 2.
const PLAN: [u8; 47] = [
    1, 0, 0, 0, 10, 0, 0, 0, 11, 0, 0, 0, 12, 0, 0, 0, 13, 3, 0, 9, 0, 3, 0, 9, 0, 3, 0, 9, 0, 3,
    0, 5, 0, 0, 0, 0, 0, 2, 1, 0, 1, 2, 0, 1, 2, 0, 2,
];

const TAPE: &[u8] =
    b"A 2\nL 2 0 2\nW 2 0 2 22\nW 2 0 1 21\nR 2 0 2\nA 1\nL 1 0 1\nW 1 0 1 31\nA 0\nL 0 0 0\nL 0 0 2\nT\nX 1\nT\nF 2\nL 0 0 2\nR 0 0 2\nF 0\nA 2\nL 2 0 1\nR 2 0 1\nF 2\n";

fn main(rt: HostRuntime) -> io::Result<()> {
    keeps_the_laws(ByPart);
    let mut input = PLAN.to_vec(rt.alloc())?;
    input.extend_from_slice(TAPE)?;
    let mut sheet = [0u8; 1024];
    match play(ByPart, &input, &mut sheet) {
        Ok(written) => rt.stdout().write_all(&sheet[..written]),
        Err(refusal) => println!(rt; "refused {}", refusal.number()),
    }
}
