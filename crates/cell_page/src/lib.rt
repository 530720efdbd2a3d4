// One cell on a loss page: the test of 11 on its six losses, and their lines.
#![tactic(auto)]

ghost use Rattle.std.specs.Prelude.{◌≡◌, true, map, ◌+◌, ◌*◌, ◌≤◌, ◌<◌, length};
ghost use Rattle.lta_spec.specs.Words.{splice, joined, over_all};
ghost use Rattle.lta_spec.specs.Shape.{run_limit};
ghost use Rattle.lta_spec.specs.Place.{loss_count};
ghost use Rattle.lta_spec.specs.Page.{Within, added, counts_sum, line_bytes, cell_lines};
ghost use Rattle.lta_spec.specs.Row.{ticks_of, row_counts};
ghost use Rattle.lta_spec.specs.Engine.{loss_at};
ghost use Rattle.lta_spec.specs.Damage.{losses_ok, page_sound};
ghost use Rattle.cell_layout.specs.Views.{places_in};

use cell_layout::{CENTRE, Cell, EDGE, LOSSES, RUN_LIMIT, TICKS};
use cell_parts::losses_ok;
use lta_spec::Counts;
use page_lines::{LINE, put_loss_line};

// The ticks of the six losses together.
fn ticks_together(cell: Cell) -> u64
    requires { losses_ok (places_in cell).losses ≡ true }
    ensures { result ≡ over_all ticks_of (places_in cell.entry).losses }
{
    let mut ticks: u64 = 0;
    for i in 0..LOSSES {
        ticks += cell.words[cell.shape.loss_row(i) + TICKS];
    }
    ticks
}

// Are the six losses within their limits, each and together?
pub fn page_sound(cell: Cell) -> bool
    ensures { result ≡ page_sound (places_in cell.entry) }
{
    losses_ok(cell) && ticks_together(cell) <= RUN_LIMIT
}

// The numbers of loss i + 1.
fn loss_counts(cell: Cell, i: usize) -> Counts
    requires { i < loss_count }
    ensures { result ≡ row_counts (loss_at cell.entry.shape.lags i (places_in cell.entry).losses) }
{
    let at = cell.shape.loss_row(i);
    Counts {
        ticks: cell.words[at + TICKS],
        edge: cell.words[at + EDGE],
        centre: cell.words[at + CENTRE],
    }
}

// Numbers of lines added up.
fn add_counts(a: Counts, b: Counts) -> Counts
    requires { Within (15 * run_limit) a × Within run_limit b }
    ensures { result ≡ added a b }
{
    Counts {
        ticks: a.ticks + b.ticks,
        edge: a.edge + b.edge,
        centre: a.centre + b.centre,
    }
}

// The lines of the six losses of cell c; answers the totals so far with their numbers.
pub fn put_cell_lines(out: &mut [u8], at: usize, cell: Cell, c: u64, sofar: Counts) -> Counts
    requires { (page_sound (places_in cell) ≡ true)
        × ((c < 100) × ((at + line_bytes * loss_count ≤ length out.old) × Within (15 * run_limit) sofar)) }
    ensures totals { result
        ≡ added sofar (counts_sum (map row_counts (places_in cell.entry).losses)) }
    ensures lines { out.new
        ≡ splice out.old at
        (joined (cell_lines c 0 (map row_counts (places_in cell.entry).losses))) }
{
    let mut sum = Counts {
        ticks: 0,
        edge: 0,
        centre: 0,
    };
    for i in 0..LOSSES {
        let k = loss_counts(cell, i);
        put_loss_line(out, at + LINE * i, c, i as u64, k);
        sum = add_counts(sum, k);
    }
    add_counts(sofar, sum)
}
