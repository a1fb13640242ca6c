// The two kinds of record: whose they are, and what images put back.
ghost use Rattle.std.specs.Prelude.{◌≡◌, filter, slice_set};
ghost use Rattle.protocol.specs.Machine.{put_back, own_image};

use crate::stack::Owned;
use protocol::{Image, LockRecord};

// An impl for each kind: it names the field, which is all that differs, and the gate takes no impl from a macro of ours.
impl Owned for LockRecord {
    ghost owner = { λ r. r.task };

    fn owner(&self) -> u8 {
        self.task
    }
}

impl Owned for Image {
    ghost owner = { λ i. i.task };

    fn owner(&self) -> u8 {
        self.task
    }
}

// The cell holds again what it held before the write.
#[tactic(auto, using(std::proofs::lemmas::List::set_past))]
fn restore(image: &Image, cells: &mut [i32])
    ensures { cells.new ≡ slice_set cells.old image.now.cell image.now.old }
{
    let cell = usize::from(image.cell);
    // By place: no clause says what a slice holds after its `get_mut`, so the equation on the cells stays open there.
    if cell < cells.len() {
        cells[cell] = image.old;
    }
}

// The newest first, so that each cell ends with what it held before the task's first write.
pub fn put_back_own(images: &[Image], task: u8, cells: &mut [i32])
    ensures { cells.new ≡ put_back (filter (own_image task) images.now) cells.old }
{
    for image in images.iter().rev() {
        if image.task == task {
            restore(image, cells);
        }
    }
}
