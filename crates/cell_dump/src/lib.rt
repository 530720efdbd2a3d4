// A dump of one cell that is not refused: Open goes to a loss, or to Held, or is emptied behind its frame.
#![tactic(auto)]

ghost use Rattle.std.specs.Prelude.{◌≡◌, true, false, ◌<◌, eqb};
ghost use Rattle.lta_spec.specs.Place.{loss_count};
ghost use Rattle.lta_spec.specs.Engine.{loss_at, lose_open, hold_open, send_open, dump_cell};
ghost use Rattle.lta_spec.specs.Damage.{dump_parts, dump_sound};
ghost use Rattle.cell_layout.specs.Cells.{Small, Changes};
ghost use Rattle.cell_layout.specs.Views.{IsCell, unit_by, places_by};
ghost use Rattle.cell_layout.specs.Moves.{label_of, Leaves};

use cell_layout::{
    BANK, COMMAND, CellShape, DATA_BIN, DISCARD, HELD_STAMP, IDLE, OCCUPIED, OPEN_ROW, OPEN_STAMP,
    ORDERED, OVERRUN,
};
use lta_spec::{Loss, Moved};
use words::{clear, fold};

// Open goes to loss i + 1; the next integration takes the stamp given.
fn lose_open(cell: &mut [u64], shape: CellShape, i: usize, stamp: u64)
    requires { (IsCell shape cell.old × (i < loss_count))
        × (Small (places_by shape cell.old).opened.members
        × Small (loss_at shape.lags i (places_by shape cell.old).losses)) }
    ensures { Changes shape.lags shape.bins (lose_open shape.lags i stamp) cell.old cell.new }
{
    fold(cell, OPEN_ROW, shape.loss_row(i), shape.row_words());
    cell[OPEN_STAMP] = stamp;
}

// Open and the label go to Held, which is clear.
fn hold_open(cell: &mut [u64], shape: CellShape, t: u64, command: u64, bank: u64, bin: u64)
    requires { (IsCell shape cell.old × (eqb (places_by shape cell.old).held.occupied 1 ≡ false))
        × (dump_parts shape.bins t (places_by shape cell.old) ≡ true) }
    ensures { Changes shape.lags shape.bins (hold_open shape.lags (label_of command bank bin) t)
        cell.old cell.new }
{
    let stamp = cell[OPEN_STAMP];
    fold(cell, OPEN_ROW, shape.held_row(), shape.row_words());
    cell[OCCUPIED] = 1;
    cell[COMMAND] = command;
    cell[BANK] = bank;
    cell[DATA_BIN] = bin;
    cell[HELD_STAMP] = stamp;
    cell[OPEN_STAMP] = t;
}

// What a speed dump leaves: Open is empty, and the next integration takes the stamp given.
pub fn send_open(cell: &mut [u64], shape: CellShape, next: u64)
    requires { IsCell shape cell.old }
    ensures { Changes shape.lags shape.bins (send_open shape.lags next) cell.old cell.new }
{
    clear(cell, OPEN_ROW, shape.row_words());
    cell[OPEN_STAMP] = next;
}

// A dump with a command other than 011 that is not refused.
pub fn dump_cell(
    cell: &mut [u64],
    shape: CellShape,
    t: u64,
    command: u64,
    bank: u64,
    bin: u64,
) -> Moved
    requires { IsCell shape cell.old
        × (dump_sound shape.lags shape.bins t command (places_by shape cell.old) ≡ true) }
    ensures { Leaves shape.lags shape.bins (unit_by shape cell.old)
        (dump_cell shape.lags (label_of command bank bin) t (places_by shape cell.old)) result cell.new }
{
    if command == IDLE {
        Moved::Idle
    } else if command == DISCARD {
        lose_open(cell, shape, ORDERED, t);
        Moved::Lost(Loss::Ordered)
    } else if cell[OCCUPIED] == 1 {
        lose_open(cell, shape, OVERRUN, t);
        Moved::Lost(Loss::Overrun)
    } else {
        hold_open(cell, shape, t, command, bank, bin);
        Moved::Kept
    }
}
