// Work memory that nobody but the test has written: two cells, three data bins for a bank, three blocks from 5 on, and
// every word within its limits.
use crate::map::{Field, Layout, Place, Set, State, greatest};
use lta_spec::Shape;
use test_lib_rules::call::{ADD, SAVE, loss_number, shaped, stored_command};
use test_lib_tools::words::{mix, put};

// t: less than the ticks of some sets, which no call asks about.
pub const NOW: u64 = 1000;

// B. Held's label names data bin 0 of bank 1.
pub const BINS: u64 = 3;

pub fn shape(lags: u64) -> Shape {
    shaped([2, lags, BINS, 3, 5, 4, 0])
}

// Words of work memory, and behind them some that no call is lent.
pub type Memory = [u64; 384];

// Memory with x as word w.
pub fn with_word(mut memory: Memory, w: u64, x: u64) -> Memory {
    put(&mut memory, w, x);
    memory
}

// What differs: is Held occupied, its command, the state of its bin, is Open full, and is the first bin Ready?
#[derive(Clone, Copy, Debug, PartialEq, Eq)]
pub struct Variant {
    pub occupied: bool,
    pub command: u64,
    pub state: State,
    pub full: bool,
    pub ready: bool,
}

// A Held that is not occupied, and a Free bin.
pub const PLAIN: Variant = Variant {
    occupied: false,
    command: SAVE,
    state: State::Free,
    full: false,
    ready: true,
};

#[derive(Clone, Copy, Debug, PartialEq, Eq)]
pub struct Base {
    pub layout: Layout,
    pub variant: Variant,
}

impl Base {
    // With N lags.
    pub fn of(lags: u8, variant: Variant) -> Base {
        Base {
            layout: Layout {
                lags,
                bins: BINS as u16,
            },
            variant,
        }
    }

    // Of bin q: Ready, or in some variants Filling, then Filling and Free in bank 0; in bank 1 the variant's, and Free.
    fn state(self, q: u64) -> State {
        match q {
            0 if self.variant.ready => State::Ready,
            0 | 1 => State::Filling,
            BINS => self.variant.state,
            _ => State::Free,
        }
    }

    // The number of Ready bins.
    fn ready(self) -> u64 {
        [0, BINS]
            .iter()
            .filter(|&&q| self.state(q) == State::Ready)
            .count() as u64
    }

    fn ticks(self, set: Set) -> u64 {
        match set {
            Set::Open => if self.variant.full { 524_288 } else { 3 },
            Set::Held => if self.variant.occupied { 5 } else { 0 },
            Set::Lost(loss) => 21 + loss_number(loss),
            Set::Bin(q) => match self.state(q) {
                State::Free => 0,
                State::Filling => 7,
                State::Ready => 9,
            },
        }
    }

    // Block 6 behind a 001; the next pick starts behind the first bin.
    fn field(self, field: Field) -> u64 {
        match field {
            Field::Flag => u64::from(self.variant.occupied),
            Field::Command => self.variant.command,
            Field::Bank => 1,
            Field::Bin => 0,
            Field::OpenStamp => 900,
            Field::HeldStamp => 800,
            Field::Block => 1,
            Field::LastCommand => stored_command(Some(ADD)),
            Field::Ready => self.ready(),
            Field::NextBin => 1,
        }
    }

    // Word j of a cell, which is word i of a set's row: ticks, edge and centre count, sums.
    fn row_word(self, set: Set, i: u64, j: u64) -> u64 {
        let ticks = self.ticks(set);
        let drawn = match set {
            Set::Bin(_) => mix(j.saturating_sub(self.layout.bins_at()), 5),
            _ => mix(j, 5),
        };
        match i {
            0 | 1 => ticks,
            2 => ticks / 2,
            _ => drawn % greatest(ticks).saturating_add(1),
        }
    }

    // Word j of a cell.
    fn cell_word(self, j: u64) -> u64 {
        match self.layout.place(j) {
            Place::Field(field) => self.field(field),
            Place::Row(set, i) => self.row_word(set, i, j),
            Place::Entry(_, _) => mix(j, 3) % 512,
            Place::State(q) => self.state(q) as u64,
            Place::Stamp(q) => 700 + q % 8,
        }
    }

    // What word i of memory is in its cell; none of t and of the last word.
    fn in_cell(self, i: u64) -> Option<u64> {
        if i == self.layout.start(2) {
            return None;
        }
        i.checked_sub(1)?.checked_rem(self.layout.cell_words())
    }

    // Word i of memory: t, those of the cells, which are all alike, and as the last one that the next pick starts at
    // the last cell.
    pub fn word(self, i: u64) -> u64 {
        match self.in_cell(i) {
            Some(j) => self.cell_word(j),
            None if i == 0 => NOW,
            None => 1,
        }
    }

    // The ticks of the row or of the bin that word i of memory stands in.
    pub fn ticks_at(self, i: u64) -> Option<u64> {
        match self.layout.place(self.in_cell(i)?) {
            Place::Row(set, _) => Some(self.ticks(set)),
            Place::State(q) | Place::Stamp(q) => Some(self.ticks(Set::Bin(q))),
            Place::Field(_) | Place::Entry(_, _) => None,
        }
    }

    pub fn memory(self) -> Memory {
        let mut memory = [0; 384];
        let words = self.layout.start(2).saturating_add(1);
        for (i, word) in memory.iter_mut().enumerate().take(words as usize) {
            *word = self.word(i as u64);
        }
        memory
    }
}
