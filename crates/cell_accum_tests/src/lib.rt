// The tests of refusal 11 on one cell, by an integration.
#![tactic(auto)]

ghost use Rattle.std.specs.Prelude.{◌≡◌, ◌*◌, ◌<◌};
ghost use Rattle.lta_spec.specs.Damage.{integrate_sound};
ghost use Rattle.cell_layout.specs.Views.{places_in};
ghost use Rattle.cell_accum_tests.specs.Ways.{bin_holds};

use cell_bins::{bin_number, bin_ok, too_wide};
use cell_held::{held_ok, label_ok};
use cell_layout::{
    BANK, COMMAND, Cell, DATA_BIN, FILLING, FULL, OCCUPIED, READY, REPLACED, ROW, SAVE, WIDE,
};
use cell_parts::{loss_holds, losses_ok};

// Has the loss that an integration into bin k adds to room for it?
fn bin_holds(cell: Cell, k: usize) -> bool
    requires { k < 2 * cell.shape.bins }
    ensures { result ≡ bin_holds cell.entry.shape.lags k (places_in cell.entry) }
{
    let words = cell.words;
    let at = cell.shape.bin_start(k);
    let held = words[cell.shape.held_row()];
    let ticks = words[at + ROW];
    let state = words[at];
    let replaces = (words[COMMAND] == SAVE) & (state == FILLING);
    if state == READY {
        loss_holds(cell, FULL, held)
    } else if replaces {
        loss_holds(cell, REPLACED, ticks)
    } else if too_wide(ticks, held) {
        loss_holds(cell, WIDE, held)
    } else {
        true
    }
}

// Does an integration find its parts as the engine leaves them, and room in the loss that it adds to?
pub fn integrate_sound(cell: Cell, t: u64) -> bool
    ensures { result ≡ integrate_sound cell.entry.shape.lags cell.entry.shape.bins t (places_in cell.entry) }
{
    let parts = held_ok(cell, t) & losses_ok(cell);
    if !parts {
        return false;
    }
    if cell.words[OCCUPIED] != 1 {
        return true;
    }
    if !label_ok(cell) {
        return false;
    }
    let k = bin_number(cell.shape, cell.words[BANK], cell.words[DATA_BIN]);
    bin_ok(cell, t, k) && bin_holds(cell, k)
}
