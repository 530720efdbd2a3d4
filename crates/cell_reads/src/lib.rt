// A reading of one cell's ledger, and a forecast.
#![tactic(auto)]

ghost use Rattle.std.specs.Prelude.{◌≡◌, true, ◌<◌, ◌≤◌};
ghost use Rattle.lta_spec.specs.Shape.{run_limit};
ghost use Rattle.lta_spec.specs.Place.{loss_count};
ghost use Rattle.lta_spec.specs.Row.{unbiased, row_sums};
ghost use Rattle.lta_spec.specs.Engine.{loss_at, forecast_of};
ghost use Rattle.lta_spec.specs.Damage.{read_sound, forecast_sound};
ghost use Rattle.cell_layout.specs.Cells.{sum_limit};
ghost use Rattle.cell_layout.specs.Views.{places_in};

use cell_layout::{CENTRE, Cell, EDGE, OPEN_LIMIT, OPEN_ROW, SUMS, TICKS};
use lta_spec::{PEAK, Sums};

// A stored sum without its bias.
fn unbias(ticks: u64, stored: u64) -> i64
    requires { (ticks ≤ run_limit) × (stored ≤ sum_limit) }
    ensures { result ≡ unbiased ticks stored }
{
    stored as i64 - (PEAK as u64 * ticks) as i64
}

// The numbers of loss i + 1 at one lag.
pub fn read_loss(cell: Cell, lag: usize, i: usize) -> Sums
    requires { (lag < cell.shape.lags) × (i < loss_count) × (read_sound (places_in cell) ≡ true) }
    ensures { result ≡ row_sums lag (loss_at cell.entry.shape.lags i (places_in cell.entry).losses) }
{
    let words = cell.words;
    let at = cell.shape.loss_row(i);
    let ticks = words[at + TICKS];
    let in_phase = at + (SUMS + 2 * lag);
    let quadrature = at + (SUMS + 1 + 2 * lag);
    Sums {
        i: unbias(ticks, words[in_phase]),
        q: unbias(ticks, words[quadrature]),
        ticks,
        edge: words[at + EDGE],
        centre: words[at + CENTRE],
    }
}

// The ticks that Open still takes.
pub fn forecast_cell(cell: Cell, t: u64) -> u64
    requires { forecast_sound t (places_in cell) ≡ true }
    ensures { result ≡ forecast_of (places_in cell.entry) }
{
    OPEN_LIMIT - cell.words[OPEN_ROW]
}
