// What the text of a report is added to.
ghost use Rattle.std.specs.Prelude.{◌≤◌, List, ℕ, [], ◌++◌, OnOk, decimal};
ghost use Rattle.std.specs.Fmt.{signed_decimal, IsPlainFormatter, HasWritten};
ghost use Rattle.pages.specs.Pages.{Added, column};
ghost use Rattle.report_pages.specs.Sinks.{page_keeps, page_joins, formatter_keeps, formatter_joins};

use pages::Page;
use std::convert::Infallible;
use std::fmt;
use std::fmt::{Formatter, Write};

// A page takes every text, a formatter can fail.
pub(crate) trait Sink {
    type Error;

    // Relates a sink, a text, and the sink after the text was added to it.
    ghost adds: { Self → List ℕ → Self → Type 0 };

    fn add(&mut self, text: &str) -> Result<(), Self::Error>
        ensures { OnOk result (adds self.old text.now self.new) };

    fn add_number(&mut self, number: i32) -> Result<(), Self::Error>
        ensures { OnOk result (adds self.old (signed_decimal number) self.new) };

    // The number in its column, which is no wider than the longest number, and the two blanks before the next.
    fn add_column(&mut self, width: usize, number: u16) -> Result<(), Self::Error>
        requires { width ≤ 11 }
        ensures { OnOk result (adds self.old (column width number) self.new) };

    // An empty text changes nothing, and two texts in a row are one.
    ghost nothing: { (sink : Self) → adds sink [] sink };

    ghost joins: { (a b c : Self) (s t : List ℕ) → adds a s b → adds b t c → adds a (s ++ t) c };

    final fn add_after(&mut self, words: &str, number: i32) -> Result<(), Self::Error>
        ensures { OnOk result (adds self.old (words.now ++ signed_decimal number) self.new) }
    {
        self.add(words)?;
        self.add_number(number)
    }

    final fn add_count(&mut self, words: &str, count: u8) -> Result<(), Self::Error>
        ensures { OnOk result (adds self.old (words.now ++ decimal count) self.new) }
    {
        self.add_after(words, i32::from(count))
    }
}

impl Sink for Page {
    type Error = Infallible;

    ghost adds = { Added };

    ghost nothing = { page_keeps };

    ghost joins = { page_joins };

    fn add(&mut self, text: &str) -> Result<(), Infallible> {
        Page::add(self, text.as_bytes());
        Ok(())
    }

    fn add_number(&mut self, number: i32) -> Result<(), Infallible> {
        Page::add_number(self, number);
        Ok(())
    }

    fn add_column(&mut self, width: usize, number: u16) -> Result<(), Infallible> {
        Page::add_column(self, width, number);
        Ok(())
    }
}

impl<W: Write> Sink for Formatter<W> {
    type Error = fmt::Error;

    ghost adds = { λ f text g. IsPlainFormatter f → HasWritten W.write_str_gives f text g };

    ghost nothing = { formatter_keeps W.write_str_gives };

    ghost joins = { formatter_joins W.write_str_gives };

    fn add(&mut self, text: &str) -> fmt::Result {
        self.write_str(text)
    }

    fn add_number(&mut self, number: i32) -> fmt::Result {
        write!(self, "{number}")
    }

    fn add_column(&mut self, width: usize, number: u16) -> fmt::Result {
        write!(self, "{number:<width$}  ")
    }
}
