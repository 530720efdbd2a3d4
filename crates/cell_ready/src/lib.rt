// The Ready number of one cell: the test of refusal 11 on it beside a bin, and what an emission leaves of a cell.
#![tactic(auto)]

ghost use Rattle.std.specs.Prelude.{◌≡◌, cond, ◌*◌, ◌<◌, ◌≤◌, eqb};
ghost use Rattle.lta_spec.specs.Place.{ready};
ghost use Rattle.lta_spec.specs.Engine.{bin_at};
ghost use Rattle.lta_spec.specs.Damage.{number_fits};
ghost use Rattle.lta_spec.specs.Memory.{unit_layout};
ghost use Rattle.cell_layout.specs.Views.{unit_in, places_in, IsCell, unit_by};
ghost use Rattle.cell_layout.specs.Lays.{Lays};
ghost use Rattle.cell_ready.specs.Taken.{taken};

use cell_bins::empty_bin;
use cell_layout::{Cell, CellShape, READY, READY_BINS};

// The number that cannot be, by the state of the bin that is tested: 0 where it is Ready, all where it isn't.
fn wrong_number(state: u64, all: u64) -> u64
    ensures { result ≡ cond (eqb state ready) 0 all }
{
    if state == READY { 0 } else { all }
}

// Is the number within the bins, and not one that bin k shows to be wrong?
pub fn number_fits(cell: Cell, k: usize) -> bool
    requires { k < 2 * cell.shape.bins }
    ensures { result
        ≡ number_fits cell.entry.shape.bins (unit_in cell.entry).picks.ready_bins
        (eqb (bin_at cell.entry.shape.lags k (places_in cell.entry)).state ready) }
{
    let all = cell.shape.all_bins() as u64;
    let number = cell.words[READY_BINS];
    let wrong = wrong_number(cell.words[cell.shape.bin_start(k)], all);
    (number <= all) & (number != wrong)
}

// What an emission leaves of a cell: bin k Free and empty, its stamp as it was, and one Ready bin less.
pub fn take_bin(cell: &mut [u64], shape: CellShape, k: usize)
    requires { (IsCell shape cell.old × (k < 2 * shape.bins))
        × (1 ≤ (unit_by shape cell.old).picks.ready_bins) }
    ensures { Lays (unit_layout shape.lags shape.bins) cell.new (taken shape.lags k (unit_by shape cell.old)) }
{
    empty_bin(cell, shape, k);
    cell[READY_BINS] -= 1;
}
