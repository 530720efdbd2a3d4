// The moves of an integration: Held goes to a loss or joins its bin, or the bin's set goes to a loss.
#![tactic(auto)]

ghost use Rattle.std.specs.Prelude.{◌≡◌, cond, ◌*◌, ◌<◌, eqb};
ghost use Rattle.lta_spec.specs.Place.{free, filling, ready, replaced, loss_count};
ghost use Rattle.lta_spec.specs.Call.{last};
ghost use Rattle.lta_spec.specs.Engine.{loss_at, bin_at};
ghost use Rattle.cell_layout.specs.Cells.{Small, Changes};
ghost use Rattle.cell_layout.specs.Views.{IsCell, places_by};
ghost use Rattle.cell_accum_moves.specs.HeldMoves.{held_lost, held_joined, bin_replaced};

use cell_layout::{
    CellShape, FILLING, FREE, HELD_STAMP, LAST, OCCUPIED, READY, REPLACED, ROW, STAMP,
};
use words::fold;

// Held goes to loss i + 1 and becomes unoccupied; bin k takes the state given.
pub fn lose_held(cell: &mut [u64], shape: CellShape, k: usize, i: usize, state: u64)
    requires { (IsCell shape cell.old × (k < 2 * shape.bins) × (i < loss_count))
        × (Small (places_by shape cell.old).held.content.members
        × Small (loss_at shape.lags i (places_by shape cell.old).losses)) }
    ensures { Changes shape.lags shape.bins (held_lost shape.lags k i state) cell.old cell.new }
{
    let at = shape.bin_start(k);
    fold(cell, shape.held_row(), shape.loss_row(i), shape.row_words());
    cell[at] = state;
    cell[OCCUPIED] = 0; // lost
}

// Held joins bin k and becomes unoccupied; the bin takes the state and the stamp given.
pub fn join_held(cell: &mut [u64], shape: CellShape, k: usize, state: u64, stamp: u64)
    requires { (IsCell shape cell.old × (k < 2 * shape.bins))
        × (Small (places_by shape cell.old).held.content.members
        × Small (bin_at shape.lags k (places_by shape cell.old)).content.members) }
    ensures { Changes shape.lags shape.bins (held_joined shape.lags k state stamp) cell.old cell.new }
{
    let at = shape.bin_start(k);
    fold(cell, shape.held_row(), at + ROW, shape.row_words());
    cell[at + STAMP] = stamp;
    cell[at] = state;
    cell[OCCUPIED] = 0;
}

// The set of bin k goes to loss 4, and Held takes its place.
pub fn replace_bin(cell: &mut [u64], shape: CellShape, k: usize)
    requires { (IsCell shape cell.old × (k < 2 * shape.bins))
        × (Small (places_by shape cell.old).held.content.members
        × Small (bin_at shape.lags k (places_by shape cell.old)).content.members
        × Small (loss_at shape.lags replaced (places_by shape cell.old).losses)) }
    ensures { Changes shape.lags shape.bins (bin_replaced shape.lags k) cell.old cell.new }
{
    let from = shape.bin_start(k) + ROW;
    let stamp = cell[HELD_STAMP];
    fold(cell, from, shape.loss_row(REPLACED), shape.row_words());
    join_held(cell, shape, k, FILLING, stamp);
}

// After 010 a bin is Ready, else Filling.
pub fn state_after(command: u64) -> u64
    ensures { result ≡ cond (eqb command last) ready filling }
{
    if command == LAST { READY } else { FILLING }
}

// A bin's stamp is that of the integration that took it out of Free.
pub fn stamp_after(state: u64, new: u64, old: u64) -> u64
    ensures { result ≡ cond (eqb state free) new old }
{
    if state == FREE { new } else { old }
}
