// The tests of refusal 11 on one cell, by a dump and by a tick.
#![tactic(auto)]

ghost use Rattle.std.specs.Prelude.{◌≡◌};
ghost use Rattle.lta_spec.specs.Damage.{dump_parts, loses_none, dump_sound, tick_sound};
ghost use Rattle.cell_layout.specs.Views.{unit_in, places_in};

use cell_held::{held_ok, label_ok};
use cell_layout::{
    Cell, DISCARD, HOLDOFF, IDLE, OCCUPIED, OPEN_LIMIT, OPEN_ROW, ORDERED, OVERRUN, SPEED,
};
use cell_parts::{loss_holds, losses_ok, open_ok};
use words::entries_ok;

// Are Open, Held and the losses such as the engine leaves?
fn dump_parts(cell: Cell, t: u64) -> bool
    ensures { result ≡ dump_parts cell.entry.shape.bins t (places_in cell.entry) }
{
    open_ok(cell, t) & (held_ok(cell, t) & (label_ok(cell) & losses_ok(cell)))
}

// Does the command add to no loss?
fn loses_none(command: u64) -> bool
    ensures { result ≡ loses_none command }
{
    (command == IDLE) | (command == SPEED)
}

// Does a dump find its parts as the engine leaves them, and room in the loss that it adds to?
pub fn dump_sound(cell: Cell, t: u64, command: u64) -> bool
    ensures { result
        ≡ dump_sound cell.entry.shape.lags cell.entry.shape.bins t command (places_in cell.entry) }
{
    if !dump_parts(cell, t) {
        return false; // damaged
    }
    let ticks = cell.words[OPEN_ROW];
    if loses_none(command) {
        true
    } else if command == DISCARD {
        loss_holds(cell, ORDERED, ticks)
    } else if cell.words[OCCUPIED] == 1 {
        loss_holds(cell, OVERRUN, ticks)
    } else {
        true
    }
}

// Does a tick find the cell's registers, Open and losses as the engine leaves them, and room in loss 6 if it needs it?
pub fn tick_sound(cell: Cell, t: u64) -> bool
    ensures { result ≡ tick_sound cell.entry.shape.lags t (unit_in cell.entry) }
{
    let shape = cell.shape;
    let xs = entries_ok(cell.words, shape.x_register(), shape.depth());
    let ys = entries_ok(cell.words, shape.y_register(), shape.depth());
    let opened = open_ok(cell, t);
    let losses = losses_ok(cell);
    let spare = loss_holds(cell, HOLDOFF, 1);
    (xs & ys) & (opened & (losses & ((cell.words[OPEN_ROW] < OPEN_LIMIT) | spare)))
}
