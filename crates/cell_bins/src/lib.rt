// The bins of one cell: where they stand, the tests of refusal 11 on a bin, and what an emission leaves.
#![tactic(auto)]

ghost use Rattle.std.specs.Prelude.{◌≡◌, ◌+◌, ◌*◌, ◌<◌, ◌≤◌, ltb};
ghost use Rattle.lta_spec.specs.Shape.{bin_limit};
ghost use Rattle.lta_spec.specs.Engine.{empty_bin};
ghost use Rattle.lta_spec.specs.Damage.{emit_sound};
ghost use Rattle.cell_layout.specs.Cells.{Changes};
ghost use Rattle.cell_layout.specs.Views.{places_in, IsCell};
ghost use Rattle.cell_bins.specs.Bins.{Numbers};

use cell_layout::{BIN_LIMIT, Cell, CellShape, FREE, READY, ROW, STAMP};
use words::{clear, row_ok};

// The place in a cell's list of the bin that a bank and a data bin name.
pub fn bin_number(shape: CellShape, bank: u64, bin: u64) -> usize
    requires { (bank < 2) × (bin < shape.bins) }
    ensures { Numbers shape.bins bank bin result }
{
    bank as usize * shape.bins + bin as usize
}

// Is bin k within its limits, and empty where it is Free? All that an emission tests.
pub fn bin_ok(cell: Cell, t: u64, k: usize) -> bool
    requires { k < 2 * cell.shape.bins }
    ensures { result ≡ emit_sound cell.entry.shape.lags t k (places_in cell.entry) }
{
    let words = cell.words;
    let at = cell.shape.bin_start(k);
    let row = row_ok(words, at + ROW, cell.shape.lags, BIN_LIMIT);
    let state = words[at];
    (row & (words[at + STAMP] <= t)) & ((state <= READY) & ((1 <= state) | (words[at + ROW] == 0)))
}

// Would the joint set pass a bin's limit?
pub fn too_wide(ticks: u64, held: u64) -> bool
    ensures { result ≡ ltb bin_limit (ticks + held) }
{
    ticks > BIN_LIMIT || BIN_LIMIT - ticks < held
}

// What an emission leaves of bin k: Free and empty, its stamp as it was.
pub fn empty_bin(cell: &mut [u64], shape: CellShape, k: usize)
    requires { IsCell shape cell.old × (k < 2 * shape.bins) }
    ensures { Changes shape.lags shape.bins (empty_bin shape.lags k) cell.old cell.new }
{
    let at = shape.bin_start(k);
    clear(cell, at + ROW, shape.row_words());
    cell[at] = FREE;
}
