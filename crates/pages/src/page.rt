// The page that a report is written on. Its size is fixed, so that no report fails for want of memory.
ghost use Rattle.std.specs.Prelude.{◌≤◌, length};

use arrayvec::ArrayVec;

// No report has more than 7,181 bytes: headings of 109, 32 objects of 56, 64 ceilings of 63 (at most two modes), 16 bounds of 78.
pub const MOST: usize = 8192;

#[derive(Drop)]
pub struct Page {
    pub(crate) bytes: ArrayVec<u8, MOST>,
    // A proof that does not read the bytes, as those of the crates above, knows their number by this alone.
    ghost fits: { length bytes.items ≤ 8192 },
}
