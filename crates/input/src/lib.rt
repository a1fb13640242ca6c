// Reading input no further than matters, so that a program copes with an endless one.
#![tactic(auto)]

ghost use Rattle.std.specs.Prelude.{◌+◌, ◌≤◌, IfOk, vec_len};
ghost use Rattle.input.specs.Chunks.{Longer, Taken};

use std::io;
use std::io::Read;

// What is asked for at a time: a page.
const CHUNK: usize = 4096;

// Some bytes more, and how many they were: 0 at the end of the input.
fn read_more<R: Read>(reader: &mut R, input: &mut Vec<u8>) -> io::Result<usize>
    ensures { IfOk result (λ n. Longer (R.remaining reader.old) (R.remaining reader.new) input.old.items n input.new.items) }
{
    let mut chunk = [0u8; CHUNK];
    let taken = reader.read(&mut chunk)?;
    input.extend_from_slice(&chunk[..taken])?;
    Ok(taken)
}

// The reader's bytes to its end, or at least one more than `most` of them: enough to see that they are more.
pub fn read_past_from<R: Read>(rt: &HostRuntime, reader: &mut R, most: usize) -> io::Result<Vec<u8>>
    ensures bytes { IfOk result (λ v. Taken (R.remaining reader.old) (R.remaining reader.new) most v.items) }
    ensures bound { IfOk result (λ v. vec_len v ≤ most + 4096) }
{
    let mut input = Vec::new(rt.alloc());
    while input.len() <= most {
        if read_more(reader, &mut input)? == 0 {
            break;
        }
    }
    Ok(input)
}

// The input, or at least one byte more of it than `most`: enough to see that it is longer.
pub fn read_past(rt: &HostRuntime, most: usize) -> io::Result<Vec<u8>>
    ensures { IfOk result (λ v. vec_len v ≤ most + 4096) }
{
    read_past_from(rt, &mut rt.stdin(), most)
}

#[cfg(test)]
mod tests {
    use super::*;

    // All of a reader's bytes, and no page more than are asked for.
    #[test]
    fn reads_a_slice(rt: HostRuntime) -> io::Result<()> {
        let mut short: &[u8] = b"A 0\nT\n";
        let all = read_past_from(&rt, &mut short, 60_001)?;
        assert_eq!(rt; all.as_slice(), b"A 0\nT\n".as_slice());
        let page = [7u8; CHUNK];
        let mut long = page.as_slice().chain(page.as_slice());
        let first = read_past_from(&rt, &mut long, 10)?;
        assert_eq!(rt; first.len(), CHUNK);
        Ok(())
    }
}
