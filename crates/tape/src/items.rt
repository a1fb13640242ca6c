// The lines of a tape, one by one: a call, or a line that is none. What a line means is in `lines`.
ghost use Rattle.std.specs.Prelude.{◌≡◌, ◌≤◌, length};
ghost use Rattle.tape.specs.Tapes.{line_length, lines, entries, Splits};
ghost use Rattle.tape.specs.Items.{to_come, bytes_left, Steps};
ghost use Rattle.std.specs.Iterator.{at_most};

use crate::lines::read_line;
use protocol::Call;

// A line that is no call, and the number of tape bytes before it.
#[derive(Clone, Copy, Debug, PartialEq, Eq)]
pub struct Unreadable<'a> {
    pub line: &'a [u8],
    pub place: usize,
}

// A line of a tape: a call, or a line that is none, which is borrowed from the tape.
pub type Item<'a> = Result<Call, Unreadable<'a>>;

// A tape, and the place from which it is still to be read: a rest that shrinks would need an invariant to give a line's place.
#[derive(Drop)]
pub struct Tape<'a> {
    bytes: &'a [u8],
    place: usize,
}

// The bytes before the first line end, or all of them.
fn line_length(bytes: &[u8]) -> usize
    ensures line { result ≡ line_length bytes.now }
    ensures within { result ≤ length bytes.now }
{
    bytes
        .iter()
        .position(|byte| *byte == b'\n')
        .unwrap_or(bytes.len())
}

impl<'a> Tape<'a> {
    pub fn new(bytes: &'a [u8]) -> Tape<'a>
        ensures entries { to_come result ≡ entries 0 (lines bytes.now) }
        ensures left { bytes_left result ≡ length bytes.now }
        ensures law { Splits bytes.now }
    {
        Tape { bytes, place: 0 }
    }
}

impl<'a> Iterator for Tape<'a> {
    type Item = Item<'a>;

    ghost next_gives = { Steps };

    ghost remaining = { λ s. at_most (bytes_left s) };

    fn next(&mut self) -> Option<Item<'a>> {
        let bytes: &'a [u8] = self.bytes;
        let place = self.place;
        if place >= bytes.len() {
            return None;
        }
        let end = place + line_length(&bytes[place..]);
        let line = &bytes[place..end];
        // The last line may lack its end.
        self.place = bytes.len().min(end + 1);
        Some(read_line(line).ok_or(Unreadable { line, place }))
    }
}
