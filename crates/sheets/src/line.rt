// The text of a line, written in place into lent bytes. docs/TAPE.md has the format.
ghost use Rattle.std.specs.Prelude.{◌≡◌, ◌+◌, ◌<◌, ◌≤◌, [], ◌∷◌, ◌++◌, length, decimal};
ghost use Rattle.std.specs.Fmt.{signed_decimal};
ghost use Rattle.sheets.specs.Sheets.{Adds, Put, task_text, account_text, answer_text, sheet_line};

use itoa::write_digits;
use protocol::{Account, Answer};

// How many digits a number has.
fn width(number: u32) -> usize
    ensures { result ≡ length (decimal number) }
{
    match number {
        0..10 => 1,
        10..100 => 2,
        100..1_000 => 3,
        1_000..10_000 => 4,
        10_000..100_000 => 5,
        100_000..1_000_000 => 6,
        1_000_000..10_000_000 => 7,
        10_000_000..100_000_000 => 8,
        100_000_000..1_000_000_000 => 9,
        _ => 10,
    }
}

// Writes the digits of a number from `at` on. The answer is the place behind them.
// Not a method: it is called, and its caller's line then stays in registers.
fn put_digits(sheet: &mut [u8], at: usize, number: u32) -> usize
    requires { at + length (decimal number) ≤ length sheet.old }
    ensures { Put sheet.old at (decimal number) sheet.new result }
{
    let end = at + width(number);
    write_digits(u64::from(number), sheet, end);
    end
}

// The lent bytes, and the place behind what is written in them.
// Written in place: a line that is made apart and then copied takes twice the time. The methods are inlined, so that the place isn't stored after each.
#[derive(Drop)]
pub(crate) struct Line<'a> {
    pub(crate) sheet: &'a mut [u8],
    pub(crate) end: usize,
}

impl Line<'_> {
    // The answer, and the task that runs after it.
    #[inline(always)]
    pub(crate) fn line(&mut self, answer: Answer, running: Option<u8>)
        requires { self.old.end + length (sheet_line answer running) ≤ length self.old.sheet.now }
        ensures { Adds self.old (sheet_line answer running) self.new }
    {
        self.answer(answer);
        self.text(b" run ");
        self.task(running);
        self.byte(b'\n');
    }

    // A minus before what is below 0, then the digits.
    #[inline(always)]
    pub(crate) fn number(&mut self, number: i32)
        requires { self.old.end + length (signed_decimal number) ≤ length self.old.sheet.now }
        ensures { Adds self.old (signed_decimal number) self.new }
    {
        if number < 0 {
            self.byte(b'-');
            self.digits(number.unsigned_abs())
        } else {
            self.digits(number.unsigned_abs())
        }
    }

    #[inline(always)]
    fn text(&mut self, text: &[u8])
        requires { self.old.end + length text.now ≤ length self.old.sheet.now }
        ensures { Adds self.old text.now self.new }
    {
        let end = self.end + text.len();
        self.sheet[self.end..end].copy_from_slice(text);
        self.end = end;
    }

    #[inline(always)]
    fn byte(&mut self, byte: u8)
        requires { self.old.end < length self.old.sheet.now }
        ensures { Adds self.old (byte ∷ []) self.new }
    {
        self.sheet[self.end] = byte;
        self.end += 1;
    }

    // Most numbers of a sheet are tasks, of one digit.
    #[inline(always)]
    fn digits(&mut self, number: u32)
        requires { self.old.end + length (decimal number) ≤ length self.old.sheet.now }
        ensures { Adds self.old (decimal number) self.new }
    {
        if number < 10 {
            return self.byte(b'0' + number as u8);
        }
        self.end = put_digits(self.sheet, self.end, number);
    }

    // The task's number, or a dash where there is none.
    #[inline(always)]
    fn task(&mut self, task: Option<u8>)
        requires { self.old.end + length (task_text task) ≤ length self.old.sheet.now }
        ensures { Adds self.old (task_text task) self.new }
    {
        match task {
            Some(task) => self.digits(u32::from(task)),
            None => self.byte(b'-'),
        }
    }

    #[inline(always)]
    fn account(&mut self, account: Account)
        requires { self.old.end + length (account_text account) ≤ length self.old.sheet.now }
        ensures { Adds self.old (account_text account) self.new }
    {
        self.digits(u32::from(account.used));
        self.byte(b' ');
        self.digits(u32::from(account.lost));
        self.byte(b' ');
        self.task(account.lost_to);
    }

    // A name, and the number that it is said of.
    #[inline(always)]
    fn named(&mut self, name: &[u8], number: i32)
        requires { self.old.end + length (name.now ++ signed_decimal number) ≤ length self.old.sheet.now }
        ensures { Adds self.old (name.now ++ signed_decimal number) self.new }
    {
        self.text(name);
        self.number(number);
    }

    #[inline(always)]
    fn answer(&mut self, answer: Answer)
        requires { self.old.end + length (answer_text answer) ≤ length self.old.sheet.now }
        ensures { Adds self.old (answer_text answer) self.new }
    {
        match answer {
            Answer::Open => self.text(b"open"),
            Answer::Granted => self.text(b"granted"),
            Answer::Wait(task) => self.named(b"wait ", i32::from(task)),
            Answer::Value(value) => self.named(b"value ", value),
            Answer::Written => self.text(b"written"),
            Answer::Closed(account) => {
                self.text(b"closed ");
                self.account(account);
            }
            Answer::Dropped(account) => {
                self.text(b"dropped ");
                self.account(account);
            }
            Answer::Ran(task) => self.named(b"ran ", i32::from(task)),
            Answer::Idle => self.text(b"idle"),
            Answer::Refused(why) => self.named(b"refused ", i32::from(why.number())),
        }
    }
}
