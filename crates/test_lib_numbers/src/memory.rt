// The words of work memory that are due, by the map of docs/LAYOUT.md.
ghost use Rattle.std.specs.Prelude.{◌≤◌};

use lta_spec::Loss;
use test_lib_machine::cell::Cell;
use test_lib_machine::machine::Machine;
use test_lib_machine::sets::{Place, Set};
use test_lib_rules::call::{cell_words, stored_command};
use test_lib_rules::history::{Quantity, Sample, Samples};
use test_lib_tools::bytes::PEAK;

// The rows of a cell but its bins'.
const ROWS: [Place; 8] = [
    Place::Open,
    Place::Held,
    Place::Lost(Loss::Ordered),
    Place::Lost(Loss::Overrun),
    Place::Lost(Loss::Full),
    Place::Lost(Loss::Replaced),
    Place::Lost(Loss::Wide),
    Place::Lost(Loss::Holdoff),
];

// The words of a row.
fn row_words(n: u64) -> usize
    ensures { 3 ≤ result }
{
    (n as usize).saturating_mul(2).saturating_add(3)
}

// Are these the words of the row of a set: ticks, edge and centre count, then I and Q of each lag, sum + 128 × ticks?
fn is_row(cell: &Cell, place: Place, words: &[u64]) -> bool {
    let Some((counts, lags)) = words.split_first_chunk() else {
        return false;
    };
    let set = Set::Of(place);
    let bias = cell.sets.members(set).wrapping_mul(PEAK);
    let stored = |k: usize, quantity| cell.sum(set, k as u64, quantity).wrapping_add(bias);
    let (pairs, _) = lags.as_chunks();
    let sums = pairs.iter().enumerate().all(|(k, pair)| *pair
        == [
            stored(k, Quantity::InPhase),
            stored(k, Quantity::Quadrature),
        ]);
    sums && *counts == cell.counts(set)
}

fn is_rows(cell: &Cell, words: &[u64]) -> bool {
    words
        .chunks_exact(row_words(cell.shape.lags))
        .zip(ROWS)
        .all(|(row, place)| is_row(cell, place, row))
}

// Are these the entries of a shift register, newest first?
fn is_register<F: Fn(Samples) -> Sample>(cell: &Cell, of: F, words: &[u64]) -> bool
    requires { F.IsAlwaysCallable of }
{
    let t = cell.sets.time();
    words.iter().zip(1..).all(|(&word, delay)| {
        let samples = cell.sampler.ago(t, delay);
        word == samples.map_or(0, |samples| of(samples).entry())
    })
}

// Are these those of X, and behind them those of Y?
fn is_registers(cell: &Cell, words: &[u64]) -> bool {
    let (xs, ys) = words.split_at(words.len() / 2);
    is_register(cell, Samples::x, xs) && is_register(cell, Samples::y, ys)
}

// Are these the words of the bin at place q: its state, its stamp and its row?
fn is_bin(cell: &Cell, q: u64, words: &[u64]) -> bool {
    let slot = cell.slot(q);
    match words {
        [state, stamp, row @ ..] => {
            *state == slot.state as u64 && *stamp == slot.stamp && is_row(cell, Place::Bin(q), row)
        }
        _ => false,
    }
}

fn is_bins(cell: &Cell, words: &[u64]) -> bool {
    words
        .chunks_exact(row_words(cell.shape.lags).saturating_add(2))
        .enumerate()
        .all(|(q, bin)| is_bin(cell, q as u64, bin))
}

// The ten fields: the last two are the number of Ready bins, and the place at which the next pick starts.
fn fields(cell: &Cell) -> [u64; 10] {
    [
        u64::from(cell.occupied),
        cell.label.command,
        cell.label.bin.bank,
        cell.label.bin.bin,
        cell.open_stamp,
        cell.held_stamp,
        cell.block,
        stored_command(cell.last),
        cell.ready(),
        cell.next_bin(),
    ]
}

// Are these the words of a cell: fields, rows, registers and bins?
fn is_cell(cell: &Cell, words: &[u64]) -> Option<bool> {
    let (head, behind) = words.split_first_chunk()?;
    let rows = row_words(cell.shape.lags).saturating_mul(8);
    let (rows, behind) = behind.split_at_checked(rows)?;
    let depth = (cell.shape.lags as usize / 2).saturating_add(1);
    let (registers, bins) = behind.split_at_checked(depth.saturating_mul(2))?;
    let state = *head == fields(cell) && is_registers(cell, registers);
    Some(state && is_rows(cell, rows) && is_bins(cell, bins))
}

// Are these the words of work memory: t, the cells, and behind them the cell at which the next pick starts?
pub fn is_due(m: &Machine, mem: &[u64]) -> bool {
    let [time, cells @ .., next_cell] = mem else {
        return false;
    };
    let width = cell_words(m.shape().lags, m.shape().bins) as usize;
    let run = *time == m.time() && *next_cell == m.next_cell();
    run && m
        .cells()
        .iter()
        .zip(cells.chunks_exact(width))
        .all(|(cell, words)| is_cell(cell, words).unwrap_or(false))
}
