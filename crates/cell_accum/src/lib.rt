// An integration of one cell that is not refused: Held goes to its bin, or to a loss.
#![tactic(auto)]

ghost use Rattle.std.specs.Prelude.{◌*◌};
ghost use Rattle.lta_spec.specs.Engine.{integrate_cell};
ghost use Rattle.cell_layout.specs.Views.{IsCell, unit_by, places_by};
ghost use Rattle.cell_layout.specs.Moves.{Leaves};
ghost use Rattle.cell_accum.specs.Integrates.{Integrates};

use cell_accum_moves::{join_held, lose_held, replace_bin, stamp_after, state_after};
use cell_bins::{bin_number, too_wide};
use cell_layout::{
    BANK, COMMAND, CellShape, DATA_BIN, FILLING, FULL, HELD_STAMP, READY, ROW, SAVE, STAMP, WIDE,
};
use lta_spec::{Loss, Moved};

// An integration that is not refused.
pub fn integrate_cell(cell: &mut [u64], shape: CellShape) -> Moved
    requires { IsCell shape cell.old × Integrates shape.lags shape.bins (places_by shape cell.old) }
    ensures { Leaves shape.lags shape.bins (unit_by shape cell.old)
        (integrate_cell shape.lags shape.bins (places_by shape cell.old)) result cell.new }
{
    let k = bin_number(shape, cell[BANK], cell[DATA_BIN]);
    let at = shape.bin_start(k);
    let from = shape.held_row();
    let command = cell[COMMAND];
    let state = cell[at];
    let replaces = (command == SAVE) & (state == FILLING);
    if state == READY {
        lose_held(cell, shape, k, FULL, READY);
        return Moved::Lost(Loss::Full);
    }
    if replaces {
        replace_bin(cell, shape, k);
        return Moved::Lost(Loss::Replaced);
    }
    let next = state_after(command);
    if too_wide(cell[at + ROW], cell[from]) {
        lose_held(cell, shape, k, WIDE, next);
        return Moved::Lost(Loss::Wide);
    }
    let stamp = stamp_after(state, cell[HELD_STAMP], cell[at + STAMP]);
    join_held(cell, shape, k, next, stamp);
    Moved::Kept
}
