// The tests of refusal 11 on Held, of one cell.
#![tactic(auto)]

ghost use Rattle.std.specs.Prelude.{◌≡◌};
ghost use Rattle.lta_spec.specs.Damage.{held_ok, label_ok};
ghost use Rattle.cell_layout.specs.Views.{places_in};

use cell_layout::{BANK, COMMAND, Cell, DATA_BIN, HELD_STAMP, LAST, OCCUPIED, OPEN_LIMIT};
use words::row_ok;

// Is Held but its label within its limits, and empty where it is unoccupied?
pub fn held_ok(cell: Cell, t: u64) -> bool
    ensures { result ≡ held_ok t (places_in cell.entry).held }
{
    let at = cell.shape.held_row();
    let row = row_ok(cell.words, at, cell.shape.lags, OPEN_LIMIT);
    let flag = cell.words[OCCUPIED];
    (row & (cell.words[HELD_STAMP] <= t)) & ((flag <= 1) & ((1 <= flag) | (cell.words[at] == 0)))
}

// Does Held's label name a command, a bank and a data bin that there are?
pub fn label_ok(cell: Cell) -> bool
    ensures { result ≡ label_ok cell.entry.shape.bins (places_in cell.entry).held.label }
{
    let words = cell.words;
    (words[COMMAND] <= LAST) & ((words[BANK] < 2) & (words[DATA_BIN] < cell.shape.bins as u64))
}
