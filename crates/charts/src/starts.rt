// The start values of the objects go into their cells.
ghost use Rattle.std.specs.Prelude.{◌≡◌, ◌*◌, ◌≤◌, length, if◌then◌else◌, nat_lt, Ok, Err, OnOk, OnErr};
ghost use Rattle.plans.specs.Plans.{contents};
ghost use Rattle.plans.specs.declared.refusal.Refusal.TheVariants.{FewCells};
ghost use Rattle.charts.specs.Starts.{started};

use crate::chart::Chart;
use plans::{Object, Refusal};
use protocol::CELLS;

// The cells past those of the objects stay.
fn start_all(objects: &[Object], cells: &mut [i32])
    requires { 4 * length objects.now ≤ length cells.old }
    ensures { cells.new ≡ started objects.now cells.old }
{
    // By index: what a loop over `chunks_exact_mut` leaves in the cells cannot be named, only how many there are.
    for (i, object) in objects.iter().enumerate() {
        cells[4 * i..4 * i + 4].copy_from_slice(&object.start);
    }
}

impl Chart {
    // The objects' cells take their start values; with fewer than 128 cells nothing changes.
    pub fn start(&self, cells: &mut [i32]) -> Result<(), Refusal>
        ensures answer { result ≡ (if nat_lt (length cells.old) 128 then Err FewCells else Ok tt) }
        ensures started { OnOk result (cells.new ≡ started (contents self.now.plan).objects cells.old) }
        ensures untouched { OnErr result (cells.new ≡ cells.old) }
    {
        if cells.len() < CELLS {
            return Err(Refusal::FewCells);
        }
        start_all(self.plan.objects(), cells);
        Ok(())
    }
}
