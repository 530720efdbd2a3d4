// The page that is due, from the sets of the losses.
use test_lib_machine::machine::Machine;
use test_lib_machine::sets::{Place, Set};
use test_lib_rules::call::LOSSES;
use test_lib_rules::page::{LINES_OF_A_CELL, added, is_page, totals};

// The numbers of the lines: "cells ascending, losses 1 to 6 within a cell".
fn fill(m: &Machine, lines: &mut [[u64; 3]]) {
    let of_cells = lines.chunks_exact_mut(LINES_OF_A_CELL);
    for (cell, of_cell) in m.cells().iter().zip(of_cells) {
        for (&loss, line) in LOSSES.iter().zip(of_cell) {
            *line = cell.counts(Set::Of(Place::Lost(loss)));
        }
    }
}

// "the sums over the ledger of the run": the numbers of every tick that any cell lost.
fn ledger(m: &Machine) -> [u64; 3] {
    let cells = m.cells().iter();
    cells.fold([0; 3], |sums, cell| added(sums, cell.counts(Set::Ledger)))
}

// Is the buffer the page, and behind it what stood there before? "The totals equal the sums of the lines and also the
// sums over the ledger of the run."
pub fn is_due(m: &Machine, out: &[u8]) -> bool {
    let mut room = [[0; 3]; 96];
    fill(m, &mut room);
    let count = m.cells().len().saturating_mul(LINES_OF_A_CELL);
    let lines = room.get(..count).unwrap_or(&room);
    totals(lines) == ledger(m) && is_page(lines, out)
}
