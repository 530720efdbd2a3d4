// A pick in one cell: what 11 tests of it, and the bin that a pick takes.
#![tactic(auto)]

ghost use Rattle.std.specs.Prelude.{◌≡◌, ◌*◌, ◌<◌};
ghost use Rattle.lta_spec.specs.Engine.{bin_at, picked_bin};
ghost use Rattle.lta_spec.specs.Damage.{pick_sound};
ghost use Rattle.cell_layout.specs.Views.{unit_in, places_in};

use cell_bins::bin_ok;
use cell_layout::{Cell, NEXT_BIN, READY, READY_BINS, place_after};

// The state of bin k.
fn bin_state(cell: Cell, k: usize) -> u64
    requires { k < 2 * cell.shape.bins }
    ensures { result ≡ (bin_at cell.entry.shape.lags k (places_in cell.entry)).state }
{
    cell.words[cell.shape.bin_start(k)]
}

// Does a pick find every bin as the engine leaves it, as many of them Ready as the number says, and its place among
// them?
pub fn pick_sound(cell: Cell, t: u64) -> bool
    ensures { result ≡ pick_sound cell.entry.shape.bins t (unit_in cell.entry) }
{
    let all = cell.shape.all_bins();
    let mut ok = true;
    let mut count: u64 = 0;
    for k in 0..all {
        let sound = bin_ok(cell, t, k);
        ok = ok & sound;
        count += u64::from(bin_state(cell, k) == READY);
    }
    ok & ((cell.words[READY_BINS] == count) & (cell.words[NEXT_BIN] < all as u64))
}

// The bin at which a search from the cell's place of picks ends.
pub fn picked_bin(cell: Cell) -> usize
    requires { (unit_in cell).picks.next < 2 * cell.shape.bins }
    ensures { result ≡ picked_bin cell.entry.shape.lags cell.entry.shape.bins (unit_in cell.entry) }
{
    let all = cell.shape.all_bins();
    let mut k = cell.words[NEXT_BIN] as usize;
    for _ in 0..all {
        if bin_state(cell, k) == READY {
            return k;
        }
        k = place_after(all as u64, k as u64) as usize;
    }
    k
}
