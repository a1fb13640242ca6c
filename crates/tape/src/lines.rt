// Reading a tape line as a call. docs/TAPE.md has the format.
ghost use Rattle.std.specs.Prelude.{◌≡◌};
ghost use Rattle.tape.specs.Numbers.{IsRead};
ghost use Rattle.tape.specs.Lines.{ended, read_three, read_write, read_call, read_line, IsMade};
ghost use Rattle.tape.specs.Written.{ReadsExactly, LineExamples};

use crate::numbers::{read_field, read_value};
use protocol::Call;

// The first three fields of a line that has them. A call takes them one by one, as the third has another name in each.
#[derive(Clone, Copy, Debug, PartialEq, Eq)]
pub(crate) struct Three {
    pub task: u8,
    pub object: u8,
    // The mode of a lock, the part of a read or a write.
    pub third: u8,
}

// The call, where its line ends here.
fn ended(call: Call, rest: &[u8]) -> Option<Call>
    ensures { result ≡ ended call rest.now }
{
    rest.is_empty().then_some(call)
}

fn read_three(fields: &[u8]) -> Option<(Three, &[u8])>
    ensures { IsRead (read_three fields.now) result }
{
    let (task, rest) = read_field(fields)?;
    let (object, rest) = read_field(rest)?;
    let (third, rest) = read_field(rest)?;
    let three = Three {
        task,
        object,
        third,
    };
    Some((three, rest))
}

// The call that is made of what was read, where the line ends behind it.
fn made<T, F: FnOnce(T) -> Call>(read: Option<(T, &[u8])>, make: F) -> Option<Call>
    requires { F.IsAlwaysCallable make }
    ensures { IsMade read.entry (F.post make) result }
{
    let (fields, rest) = read?;
    ended(make(fields), rest)
}

fn read_write(fields: &[u8]) -> Option<Call>
    ensures { result ≡ read_write fields.now }
{
    let (three, rest) = read_three(fields)?;
    let (value, rest) = read_value(rest)?;
    ended(
        Call::Write {
            task: three.task,
            object: three.object,
            part: three.third,
            value,
        },
        rest,
    )
}

fn read_call(letter: char, fields: &[u8]) -> Option<Call>
    ensures { result ≡ read_call letter fields.now }
{
    // The letter is matched as a character, one of the forms that docs/DECISIONS.md lists.
    match letter {
        'A' => made(read_field(fields), |task| Call::Arrive { task }),
        'L' => made(
            read_three(fields),
            |three| Call::Lock {
                task: three.task,
                object: three.object,
                mode: three.third,
            },
        ),
        'R' => made(
            read_three(fields),
            |three| Call::Read {
                task: three.task,
                object: three.object,
                part: three.third,
            },
        ),
        'W' => read_write(fields),
        'F' => made(read_field(fields), |task| Call::Close { task }),
        'X' => made(read_field(fields), |task| Call::Drop { task }),
        'T' => ended(Call::Tick, fields),
        _ => None,
    }
}

// The call that the line is, where it is one.
pub fn read_line(line: &[u8]) -> Option<Call>
    ensures call { result ≡ read_line line.now }
    ensures law { ReadsExactly line.now }
    ensures examples { LineExamples }
{
    let [letter, fields @ ..] = line else {
        return None;
    };
    read_call(char::from(*letter), fields)
}
