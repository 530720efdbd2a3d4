// Request 2026-07 on any words of work memory: how many bins are Ready, and which one a pick takes.
use crate::cells::{Cell, Run};
use crate::map::{Field, State};
use test_lib_rules::call::{Call, Op};
use test_lib_rules::places::{behind, taking};

// What a pick takes: bin q of a cell.
#[derive(Clone, Copy, Debug, PartialEq, Eq)]
pub struct Taken {
    pub cell: u64,
    pub q: u64,
}

impl Cell<'_> {
    pub fn is_ready(self, q: u64) -> bool {
        self.state(q) == Some(State::Ready)
    }

    // How many of a cell's bins are Ready.
    pub fn ready(self) -> u64 {
        (0..self.run.layout.places())
            .filter(|&q| self.is_ready(q))
            .count() as u64
    }

    // "where the cell's Ready number is above 2B".
    pub fn ready_past(self) -> bool {
        self.field(Field::Ready) > self.run.layout.places()
    }

    // "or is 0 though the bin tested is Ready, or 2B though it isn't".
    pub fn ready_bad(self, q: u64) -> bool {
        let never = if self.is_ready(q) {
            0
        } else {
            self.run.layout.places()
        };
        self.ready_past() || self.field(Field::Ready) == never
    }

    // "Within it, starting after the bin last picked in that cell .., it goes round bank 0's bins and then bank 1's":
    // the first that is Ready.
    fn picked_bin(self) -> Option<u64> {
        let places = self.run.layout.places();
        let next = self.field(Field::NextBin);
        (0..places)
            .map(|j| behind(next, j, places))
            .find(|&q| self.is_ready(q))
    }
}

impl Run<'_> {
    fn taken_in(&self, cell: u64) -> Option<Taken> {
        let q = self.cell(cell).picked_bin()?;
        Some(Taken { cell, q })
    }

    // "Starting from the cell after the last one served .. and going round, it takes the first cell with a Ready bin".
    pub fn picked(&self) -> Option<Taken> {
        let cells = self.shape.cells;
        let next = self.next_cell();
        (0..cells)
            .map(|j| behind(next, j, cells))
            .find_map(|c| self.taken_in(c))
    }

    // The call; a pick gets the bin that it takes.
    pub fn taken(&self, k: Call) -> Call {
        match k.op {
            Op::Pick(_) => self
                .picked()
                .map_or(k, |pick| taking(k, pick.cell, pick.q, self.shape.bins)),
            _ => k,
        }
    }
}
