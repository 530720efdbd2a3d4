// Words of work memory as a run, its cells, and what a cell has. Past the end of memory a word reads as 0.
use crate::map::{Field, Layout, Place, Set, State, Stream};
use lta_spec::Shape;
use test_lib_tools::words::{get, head};

// "ticks pass their limit (Open and Held 524,288, a bin 16,777,215, a loss 2,147,483,648)".
pub const SHORT: u64 = 524_288;

pub const WIDE: u64 = 16_777_215;

pub const LONG: u64 = 2_147_483_648;

// The words from `at` on.
fn behind(words: &[u64], at: u64) -> &[u64] {
    words.get(at as usize..).unwrap_or(&[])
}

#[derive(Clone, Copy)]
pub struct Run<'a> {
    pub shape: Shape,
    pub layout: Layout,
    pub words: &'a [u64],
}

impl<'a> Run<'a> {
    // None where N or B is far past its limit.
    pub fn of(shape: Shape, words: &'a [u64]) -> Option<Run<'a>> {
        let layout = Layout::of(shape)?;
        Some(Run {
            shape,
            layout,
            words,
        })
    }

    // t.
    pub fn now(&self) -> u64 {
        get(self.words, 0)
    }

    // The cell at which the next pick starts.
    pub fn next_cell(&self) -> u64 {
        get(self.words, self.layout.start(self.shape.cells))
    }

    // Cell c; its words are all from its first one on.
    pub fn cell(&'a self, c: u64) -> Cell<'a> {
        Cell {
            run: self,
            words: behind(self.words, self.layout.start(c)),
        }
    }
}

#[derive(Clone, Copy)]
pub struct Cell<'a> {
    pub run: &'a Run<'a>,
    pub words: &'a [u64],
}

impl<'a> Cell<'a> {
    pub fn word(self, place: Place) -> u64 {
        get(self.words, self.run.layout.at(place))
    }

    pub fn field(self, field: Field) -> u64 {
        self.word(Place::Field(field))
    }

    pub fn row(self, set: Set) -> Row<'a> {
        let layout = self.run.layout;
        Row {
            layout,
            words: behind(self.words, layout.at(Place::Row(set, 0))),
        }
    }

    pub fn ticks(self, set: Set) -> u64 {
        self.word(Place::Row(set, 0))
    }

    // Has Open 524,288 ticks?
    pub fn is_full(self) -> bool {
        self.ticks(Set::Open) == SHORT
    }

    // Both registers' entries.
    pub fn entries(self) -> &'a [u64] {
        let layout = self.run.layout;
        head(
            behind(self.words, layout.at(Place::Entry(Stream::X, 0))),
            2 * layout.depth(),
        )
    }

    // None where no state is stored so.
    pub fn state(self, q: u64) -> Option<State> {
        match self.word(Place::State(q)) {
            0 => Some(State::Free),
            1 => Some(State::Filling),
            2 => Some(State::Ready),
            _ => None,
        }
    }

    pub fn stamp(self, q: u64) -> u64 {
        self.word(Place::Stamp(q))
    }
}

// A row: ticks, edge and centre count, two sums for each lag.
#[derive(Clone, Copy)]
pub struct Row<'a> {
    layout: Layout,
    words: &'a [u64],
}

impl<'a> Row<'a> {
    pub fn word(self, j: u64) -> u64 {
        get(self.words, j)
    }

    pub fn ticks(self) -> u64 {
        get(self.words, 0)
    }

    pub fn edge(self) -> u64 {
        get(self.words, 1)
    }

    pub fn centre(self) -> u64 {
        get(self.words, 2)
    }

    // Sum i, as it is stored: I and Q of lag 0, then of lag 1, and so on.
    pub fn sum(self, i: u64) -> u64 {
        get(self.words, i.saturating_add(3))
    }

    // All of them.
    pub fn sums(self) -> &'a [u64] {
        head(behind(self.words, 3), 2 * u64::from(self.layout.lags))
    }
}
