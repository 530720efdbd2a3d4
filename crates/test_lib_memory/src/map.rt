// Where each part of a cell stands in its words, and how great a sum may stand there, by docs/LAYOUT.md.
ghost use Rattle.std.specs.Prelude.{◌<◌, ◌≤◌};

use lta_spec::{Loss, Shape};
use test_lib_rules::call::{Bin, cell_words, loss_number};
use test_lib_rules::places::places;
use test_lib_tools::bytes::PEAK;

// Of the run: t, then the cells.
pub const CELLS: u64 = 1;

// The words that stand before a cell's rows, each by its number: Held's flag, its label, the stamps of Open and of
// Held; the current block, counted from S, and the last command; the number of Ready bins, and the bin at which the
// next pick starts.
#[derive(Clone, Copy, Debug, PartialEq, Eq)]
pub enum Field {
    Flag,
    Command,
    Bank,
    Bin,
    OpenStamp,
    HeldStamp,
    Block,
    LastCommand,
    Ready,
    NextBin,
}

static FIELDS: [Field; 10] = [
    Field::Flag,
    Field::Command,
    Field::Bank,
    Field::Bin,
    Field::OpenStamp,
    Field::HeldStamp,
    Field::Block,
    Field::LastCommand,
    Field::Ready,
    Field::NextBin,
];

// The states of a bin.
#[derive(Clone, Copy, Debug, PartialEq, Eq)]
pub enum State {
    Free,
    Filling,
    Ready,
}

#[derive(Clone, Copy, Debug, PartialEq, Eq)]
pub enum Stream {
    X,
    Y,
}

// What has a row of its own: Open, Held, a loss, and bin k, k = bank × B + data bin.
#[derive(Clone, Copy, Debug, PartialEq, Eq)]
pub enum Set {
    Open,
    Held,
    Lost(Loss),
    Bin(u64),
}

// The sets before the registers, in their order.
static ROWS: [Set; 8] = [
    Set::Open,
    Set::Held,
    Set::Lost(Loss::Ordered),
    Set::Lost(Loss::Overrun),
    Set::Lost(Loss::Full),
    Set::Lost(Loss::Replaced),
    Set::Lost(Loss::Wide),
    Set::Lost(Loss::Holdoff),
];

// What a word of a cell is: a field, a word of a row, an entry of a register, state or stamp of a bin.
#[derive(Clone, Copy, Debug, PartialEq, Eq)]
pub enum Place {
    Field(Field),
    Row(Set, u64),
    Entry(Stream, u64),
    State(u64),
    Stamp(u64),
}

// N and B of a run.
#[derive(Clone, Copy, Debug, PartialEq, Eq)]
pub struct Layout {
    pub lags: u8,
    pub bins: u16,
}

impl Layout {
    // None where N or B is far past its limit.
    pub fn of(s: Shape) -> Option<Layout> {
        let lags = u8::try_from(s.lags).ok()?;
        let bins = u16::try_from(s.bins).ok()?;
        Some(Layout { lags, bins })
    }

    // The words of a row: ticks, edge and centre count, two sums for each lag.
    pub fn row_words(self) -> u64
        ensures low { 3 ≤ result }
        ensures high { result ≤ 513 }
    {
        3 + 2 * u64::from(self.lags)
    }

    // The entries of a register.
    pub fn depth(self) -> u64
        ensures low { 1 ≤ result }
        ensures high { result ≤ 128 }
    {
        u64::from(self.lags / 2) + 1
    }

    // The words of a bin: its state, then its stamp, then its row.
    fn bin_words(self) -> u64
        ensures low { 5 ≤ result }
        ensures high { result ≤ 515 }
    {
        2 + self.row_words()
    }

    pub fn cell_words(self) -> u64 {
        cell_words(u64::from(self.lags), u64::from(self.bins))
    }

    // How many bins a cell has.
    pub fn places(self) -> u64 {
        places(u64::from(self.bins))
    }

    // The number of a bin, which is its place in the round.
    pub fn number(self, bin: Bin) -> u64 {
        bin.place(u64::from(self.bins))
    }

    // The first word of row r.
    fn row(self, r: u64) -> u64
        requires { r ≤ 7 }
    {
        10 + r * self.row_words()
    }

    // The first word of a set's row.
    fn set(self, set: Set) -> u64 {
        match set {
            Set::Open => self.row(0),
            Set::Held => self.row(1),
            Set::Lost(loss) => self.row(1 + loss_number(loss)),
            Set::Bin(q) => self.bin(q).saturating_add(2),
        }
    }

    // The first word of a register.
    fn register(self, stream: Stream) -> u64
        ensures { result < 5000 }
    {
        let behind_rows = 10 + 8 * self.row_words();
        match stream {
            Stream::X => behind_rows,
            Stream::Y => behind_rows + self.depth(),
        }
    }

    // The first word of the bins.
    pub fn bins_at(self) -> u64 {
        self.register(Stream::Y) + self.depth()
    }

    // The first word of bin q; past the end of memory where there is none.
    fn bin(self, q: u64) -> u64 {
        q.saturating_mul(self.bin_words())
            .saturating_add(self.bins_at())
    }

    // The first word of cell c in work memory, and behind the last cell the cell at which the next pick starts.
    pub fn start(self, c: u64) -> u64 {
        c.saturating_mul(self.cell_words()).saturating_add(CELLS)
    }

    // The number of a word in its cell.
    pub fn at(self, place: Place) -> u64 {
        match place {
            Place::Field(field) => field as u64,
            Place::Row(set, i) => self.set(set).saturating_add(i),
            Place::Entry(stream, d) => self.register(stream).saturating_add(d),
            Place::State(q) => self.bin(q),
            Place::Stamp(q) => self.bin(q).saturating_add(1),
        }
    }

    // The number of a word of cell c in work memory.
    pub fn at_cell(self, c: u64, place: Place) -> u64 {
        self.start(c).saturating_add(self.at(place))
    }

    // What word j of a cell is, where the cell ends with its last bin.
    pub fn place(self, j: u64) -> Place {
        let i = j.saturating_sub(FIELDS.len() as u64);
        if let Some(&field) = FIELDS.get(j as usize) {
            Place::Field(field)
        } else if let Some(&set) = ROWS.get((i / self.row_words()) as usize) {
            Place::Row(set, i % self.row_words())
        } else {
            self.place_behind_rows(j.saturating_sub(self.register(Stream::X)))
        }
    }

    fn place_behind_rows(self, i: u64) -> Place {
        let depth = self.depth();
        match i / depth {
            0 => Place::Entry(Stream::X, i % depth),
            1 => Place::Entry(Stream::Y, i % depth),
            _ => self.place_in_bins(i.saturating_sub(2 * depth)),
        }
    }

    fn place_in_bins(self, i: u64) -> Place {
        let q = i / self.bin_words();
        match i % self.bin_words() {
            0 => Place::State(q),
            1 => Place::Stamp(q),
            word => Place::Row(Set::Bin(q), word - 2),
        }
    }
}

// The greatest sum of so many ticks, 128 × ticks, as it is stored, with 128 × ticks added; the least is stored as 0.
pub fn greatest(ticks: u64) -> u64 {
    ticks.saturating_mul(2 * PEAK)
}
