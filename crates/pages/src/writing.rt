// Adding text to a page. What would be past the page's end is left out.
ghost use Rattle.std.specs.Prelude.{◌≡◌, min, [], decimal};
ghost use Rattle.std.specs.Fmt.{signed_decimal};
ghost use Rattle.pages.specs.Pages.{text_of, Added, padded, column};

use crate::page::Page;
use arrayvec::ArrayVec;
use sheets::{MOST_NUMBER, write_number};
use std::io::Write;

impl Page {
    // Nothing is on it.
    pub fn empty() -> Page
        ensures { text_of result ≡ [] }
    {
        Page {
            bytes: ArrayVec::new(),
        }
    }

    pub fn as_slice(&self) -> &[u8]
        ensures { result.now ≡ text_of self.now }
    {
        self.bytes.as_slice()
    }

    pub fn add(&mut self, text: &[u8])
        ensures { Added self.old text.now self.new }
    {
        // It takes as many bytes as there is room for.
        let _count = self.bytes.write(text);
    }

    // The number, and blanks up to the width, which is no more than the eleven of the longest number.
    // Not by `write!` with a width: tried, and the page is not proved where it answers `Err`, of which its contract says nothing.
    fn add_padded(&mut self, width: usize, number: i32)
        ensures { Added self.old (padded (min width 11) (signed_decimal number)) self.new }
    {
        let mut cells = [b' '; MOST_NUMBER];
        // No number is refused, as the cells are enough for the longest.
        if let Ok(end) = write_number(&mut cells, 0, number) {
            self.add(&cells[..end.max(width.min(MOST_NUMBER))]);
        }
    }

    pub fn add_number(&mut self, number: i32)
        ensures { Added self.old (signed_decimal number) self.new }
    {
        self.add_padded(0, number);
    }

    pub fn add_count(&mut self, count: u8)
        ensures { Added self.old (decimal count) self.new }
    {
        self.add_number(i32::from(count));
    }

    // The number in its column, which is no wider than the longest number, and the two blanks before the next.
    pub fn add_column(&mut self, width: usize, number: u16)
        ensures { Added self.old (column (min width 11) number) self.new }
    {
        self.add_padded(width, i32::from(number));
        self.add(b"  ");
    }
}
