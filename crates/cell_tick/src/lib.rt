// One cell's tick: its registers move, and the tick is added to Open or, where Open is full, to loss 6.
#![tactic(auto)]

ghost use Rattle.std.specs.Prelude.{◌≡◌, ◌*◌, ◌/◌};
ghost use Rattle.lta_spec.specs.Engine.{has_room};
ghost use Rattle.cell_layout.specs.Views.{places_in, IsCell, unit_by};
ghost use Rattle.cell_tick.specs.Ticks.{Sound, row_for, Ticked};

use cell_layout::{Cell, CellShape, HOLDOFF, OPEN_LIMIT, OPEN_ROW};
use cell_shift::shift_both;
use lag::add_tick;

// The row that a tick is added to: Open's or, where Open is full, that of loss 6.
fn tick_row(cell: Cell) -> usize
    ensures { result ≡ row_for cell.entry.shape.lags (has_room cell.entry.shape.lags (places_in cell.entry)) }
{
    if cell.words[OPEN_ROW] < OPEN_LIMIT {
        OPEN_ROW
    } else {
        cell.shape.loss_row(HOLDOFF)
    }
}

// A tick that is not refused and brings the entries x and y; answers 1 where the cell is held off, else 0.
pub fn tick_cell(cell: &mut [u64], shape: CellShape, x: u64, y: u64) -> u64
    requires { (IsCell shape cell.old × (shape.lags ≡ 2 * (shape.lags / 2)))
        × Sound shape.lags (unit_by shape cell.old) }
    ensures { Ticked shape.lags shape.bins x y (unit_by shape cell.old) result cell.new }
{
    let to = tick_row(Cell { words: cell, shape });
    shift_both(cell, shape, x, y);
    add_tick(cell, shape.x_register(), shape.y_register(), to, shape.lags);
    (to != OPEN_ROW) as u64
}
