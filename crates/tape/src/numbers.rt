// Reading the numbers of a tape line. docs/TAPE.md has the format.
ghost use Rattle.std.specs.Prelude.{◌≤◌, IfSome};
ghost use Rattle.tape.specs.Numbers.{digits_after, read_number, read_field, below_zero, not_below_zero, read_signed, read_value, IsRead};

// The digits at the front, as far as they go, where their number stays within `most`.
fn read_digits(bytes: &[u8], most: u32) -> Option<(u32, &[u8])>
    ensures number { IsRead (digits_after most 0 bytes.now) result }
    ensures within { IfSome result (λ p. p.0 ≤ most) }
{
    // Ten times a number within `most` and a digit more fits 64 bits.
    let mut number: u64 = 0;
    let mut rest = bytes;
    // A loop of its own, as `parse` also takes `+5` and `007`, which are no numbers of a tape.
    while let [digit @ b'0'..=b'9', after @ ..] = rest {
        number = number * 10 + u64::from(*digit - b'0');
        if u64::from(most) < number {
            return None;
        }
        rest = after;
    }
    Some((number as u32, rest))
}

// The number at the front: digits without a leading zero.
fn read_number(bytes: &[u8], most: u32) -> Option<(u32, &[u8])>
    ensures number { IsRead (read_number most bytes.now) result }
    ensures within { IfSome result (λ p. p.0 ≤ most) }
{
    match bytes {
        [b'0', rest @ ..] => Some((0, rest)),
        [b'1'..=b'9', ..] => read_digits(bytes, most),
        _ => None,
    }
}

// The field at the front, after its space: a task, an object, a mode or a part.
pub(crate) fn read_field(bytes: &[u8]) -> Option<(u8, &[u8])>
    ensures { IsRead (read_field bytes.now) result }
{
    let [b' ', number @ ..] = bytes else {
        return None;
    };
    // The limit is that of a byte, so `as` loses no bit, and no field is tried twice.
    let (number, rest) = read_number(number, 255)?;
    Some((number as u8, rest))
}

// The value at the front, after its space; it alone may have a minus.
pub(crate) fn read_value(bytes: &[u8]) -> Option<(i32, &[u8])>
    ensures { IsRead (read_value bytes.now) result }
{
    let [b' ', value @ ..] = bytes else {
        return None;
    };
    read_signed(value)
}

fn read_signed(bytes: &[u8]) -> Option<(i32, &[u8])>
    ensures { IsRead (read_signed bytes.now) result }
{
    match bytes {
        [b'-', magnitude @ ..] => read_below_zero(magnitude),
        _ => read_not_below_zero(bytes),
    }
}

// What stands after a minus: 0 has none, and the least value is one further from 0 than the largest. So it shares no text with the function below.
fn read_below_zero(bytes: &[u8]) -> Option<(i32, &[u8])>
    ensures { IsRead (below_zero (read_number 2147483648 bytes.now)) result }
{
    let (magnitude, rest) = read_number(bytes, 2147483648)?;
    if magnitude == 0 {
        return None;
    }
    Some((0i32.checked_sub_unsigned(magnitude)?, rest))
}

fn read_not_below_zero(bytes: &[u8]) -> Option<(i32, &[u8])>
    ensures { IsRead (not_below_zero (read_number 2147483647 bytes.now)) result }
{
    let (magnitude, rest) = read_number(bytes, 2147483647)?;
    Some((i32::try_from(magnitude).ok()?, rest))
}
