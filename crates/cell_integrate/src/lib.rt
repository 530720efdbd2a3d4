// An integration with the Ready number of its cell: what 11 tests, and the number behind it.
#![tactic(auto)]

ghost use Rattle.std.specs.Prelude.{◌≡◌, true};
ghost use Rattle.lta_spec.specs.Engine.{integrate_cell};
ghost use Rattle.lta_spec.specs.Damage.{label_ok, integrate_unit_sound};
ghost use Rattle.cell_layout.specs.Views.{unit_in, places_in, IsCell, unit_by, places_by};
ghost use Rattle.cell_layout.specs.Moves.{Leaves};
ghost use Rattle.cell_integrate.specs.Raises.{IntegratesUnit, more_ready, numbered};

use cell_accum::integrate_cell;
use cell_accum_tests::integrate_sound;
use cell_bins::bin_number;
use cell_layout::{BANK, COMMAND, Cell, CellShape, DATA_BIN, LAST, OCCUPIED, READY, READY_BINS};
use cell_ready::number_fits;
use lta_spec::Moved;

// Does an integration find its parts as the engine leaves them? Where Held is unoccupied, no bin is tested, and the
// number alone.
pub fn integrate_unit_sound(cell: Cell, t: u64) -> bool
    ensures { result ≡ integrate_unit_sound cell.entry.shape.lags cell.entry.shape.bins t (unit_in cell.entry) }
{
    if !integrate_sound(cell, t) {
        return false;
    }
    if cell.words[OCCUPIED] != 1 {
        return cell.words[READY_BINS] <= cell.shape.all_bins() as u64;
    }
    let k = bin_number(cell.shape, cell.words[BANK], cell.words[DATA_BIN]);
    number_fits(cell, k)
}

// How many Ready bins more there are behind an integration: 1 where 010 meets a bin that is not Ready.
fn raises(cell: Cell) -> u64
    requires { label_ok cell.shape.bins (places_in cell).held.label ≡ true }
    ensures { result ≡ more_ready cell.entry.shape.lags cell.entry.shape.bins (places_in cell.entry) }
{
    let words = cell.words;
    let k = bin_number(cell.shape, words[BANK], words[DATA_BIN]);
    let raising = (words[COMMAND] == LAST) & (words[cell.shape.bin_start(k)] != READY);
    u64::from(raising)
}

// An integration that is not refused.
pub fn integrate_unit(cell: &mut [u64], shape: CellShape) -> Moved
    requires { IsCell shape cell.old × IntegratesUnit shape.lags shape.bins (unit_by shape cell.old) }
    ensures { Leaves shape.lags shape.bins (numbered shape.lags shape.bins (unit_by shape cell.old))
        (integrate_cell shape.lags shape.bins (places_by shape cell.old)) result cell.new }
{
    let more = raises(Cell { words: cell, shape });
    let moved = integrate_cell(cell, shape);
    cell[READY_BINS] += more;
    moved
}
