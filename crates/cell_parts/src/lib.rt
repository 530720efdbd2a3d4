// The tests of refusal 11 on the parts of one cell: Open and the losses.
#![tactic(auto)]

ghost use Rattle.std.specs.Prelude.{◌≡◌, ◌<◌};
ghost use Rattle.lta_spec.specs.Place.{loss_count};
ghost use Rattle.lta_spec.specs.Damage.{open_ok, losses_ok, loss_holds};
ghost use Rattle.cell_layout.specs.Views.{places_in};

use cell_layout::{Cell, LOSSES, OPEN_LIMIT, OPEN_ROW, OPEN_STAMP, RUN_LIMIT};
use words::row_ok;

// Is Open within its limits?
pub fn open_ok(cell: Cell, t: u64) -> bool
    ensures { result ≡ open_ok t (places_in cell.entry) }
{
    let row = row_ok(cell.words, OPEN_ROW, cell.shape.lags, OPEN_LIMIT);
    row & (cell.words[OPEN_STAMP] <= t)
}

// Are the six losses within their limits?
pub fn losses_ok(cell: Cell) -> bool
    ensures { result ≡ losses_ok (places_in cell.entry).losses }
{
    let mut ok = true;
    for i in 0..LOSSES {
        let row = row_ok(
            cell.words,
            cell.shape.loss_row(i),
            cell.shape.lags,
            RUN_LIMIT,
        );
        ok = ok & row;
    }
    ok
}

// Has loss i + 1 room for so many ticks more?
pub fn loss_holds(cell: Cell, i: usize, more: u64) -> bool
    requires { i < loss_count }
    ensures { result ≡ loss_holds cell.entry.shape.lags i more (places_in cell.entry) }
{
    let ticks = cell.words[cell.shape.loss_row(i)];
    if ticks > RUN_LIMIT {
        false
    } else {
        more <= RUN_LIMIT - ticks
    }
}
