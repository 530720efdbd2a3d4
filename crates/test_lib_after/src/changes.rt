// What each accepted call leaves of the words of a cell, from those before it.
use lta_spec::Loss;
use test_lib_memory::cells::Cell;
use test_lib_memory::map::{Field, Place, Set, State, Stream};
use test_lib_rules::call::{LAST, SPEED_DUMP, data_bin, next_block, stored_command};
use test_lib_rules::history::{Quantity, Sample, Samples, pair};
use test_lib_rules::places::behind;
use test_lib_tools::bytes::PEAK;

// A word of a cell: what it is, and its value before the call.
#[derive(Clone, Copy)]
pub struct Word {
    pub place: Place,
    pub old: u64,
}

// The word where a set's row is empty.
fn emptied(from: Set, word: Word) -> u64 {
    match word.place {
        Place::Row(set, _) if set == from => 0,
        _ => word.old,
    }
}

// The word where a set's row goes to another one, and is empty.
fn moved(cell: Cell<'_>, from: Set, to: Set, word: Word) -> u64 {
    match word.place {
        Place::Row(set, i) if set == to => word.old.wrapping_add(cell.row(from).word(i)),
        _ => emptied(from, word),
    }
}

// The word where Held's row takes the place of a set's, which goes to loss 4.
fn replaced(cell: Cell<'_>, set: Set, word: Word) -> u64 {
    match word.place {
        Place::Row(Set::Held, _) => 0,
        Place::Row(here, i) if here == set => cell.row(Set::Held).word(i),
        _ => moved(cell, set, Set::Lost(Loss::Replaced), word),
    }
}

// A dump but 111.
#[derive(Clone, Copy)]
pub struct Dump<'a> {
    pub cell: Cell<'a>,
    pub command: u64,
    pub bank: u64,
    pub phase: u64,
}

impl Dump<'_> {
    // The cell's block after it, counted from S.
    fn block(self) -> u64 {
        let last = self.cell.field(Field::LastCommand).checked_sub(1);
        let blocks = self.cell.run.shape.blocks;
        next_block(self.cell.field(Field::Block), last, self.command, blocks)
    }

    // The data bin in its label.
    pub fn bin(self) -> u64 {
        data_bin(self.phase, self.cell.run.shape.blocks, self.block())
    }

    // Where Open goes: to Held or to a loss; of 011, to its frame alone.
    fn to(self) -> Option<Set> {
        match self.command {
            SPEED_DUMP => None,
            _ => Some(
                self.cell
                    .dump_loss(self.command)
                    .map_or(Set::Held, Set::Lost),
            ),
        }
    }

    // Open's stamp, the block and the last command move, whether it is kept or not; where it is, label and stamp of
    // Held.
    fn field(self, field: Field, old: u64) -> u64 {
        let kept = self.to() == Some(Set::Held);
        match field {
            Field::OpenStamp => self.cell.run.now(),
            Field::Block => self.block(),
            Field::LastCommand => stored_command(Some(self.command)),
            Field::Flag if kept => 1,
            Field::Command if kept => self.command,
            Field::Bank if kept => self.bank,
            Field::Bin if kept => self.bin(),
            Field::HeldStamp if kept => self.cell.field(Field::OpenStamp),
            _ => old,
        }
    }

    pub fn word(self, word: Word) -> u64 {
        match (word.place, self.to()) {
            (Place::Field(field), _) => self.field(field, word.old),
            (_, Some(to)) => moved(self.cell, Set::Open, to, word),
            (_, None) => emptied(Set::Open, word),
        }
    }
}

// An integration into bin q.
#[derive(Clone, Copy)]
pub struct Integration<'a> {
    cell: Cell<'a>,
    q: u64,
    loss: Option<Loss>,
}

impl<'a> Integration<'a> {
    pub fn of(cell: Cell<'a>) -> Integration<'a> {
        Integration {
            cell,
            q: cell.label_bin(),
            loss: cell.integrate_loss(),
        }
    }

    // "A Free bin becomes Filling. After 010 a bin is Ready, also after loss 5."
    fn state(self) -> State {
        if self.cell.field(Field::Command) == LAST || self.loss == Some(Loss::Full) {
            State::Ready
        } else {
            State::Filling
        }
    }

    // A bin that is taken out of Free, or whose set is replaced, takes Held's stamp.
    fn stamp(self) -> u64 {
        if self.loss == Some(Loss::Replaced) || self.cell.state(self.q) == Some(State::Free) {
            self.cell.field(Field::HeldStamp)
        } else {
            self.cell.stamp(self.q)
        }
    }

    // The number of Ready bins: one more where 010 makes one so that was not.
    fn ready(self) -> u64 {
        let made = self.cell.field(Field::Command) == LAST && !self.cell.is_ready(self.q);
        self.cell.field(Field::Ready).wrapping_add(u64::from(made))
    }

    fn row_word(self, word: Word) -> u64 {
        let bin = Set::Bin(self.q);
        match self.loss {
            None => moved(self.cell, Set::Held, bin, word),
            Some(Loss::Replaced) => replaced(self.cell, bin, word),
            Some(loss) => moved(self.cell, Set::Held, Set::Lost(loss), word),
        }
    }

    pub fn word(self, word: Word) -> u64 {
        match word.place {
            Place::Field(Field::Flag) => 0,
            Place::Field(Field::Ready) => self.ready(),
            Place::State(q) if q == self.q => self.state() as u64,
            Place::Stamp(q) if q == self.q => self.stamp(),
            _ => self.row_word(word),
        }
    }
}

// An emission of bin q: it is Free and empty, and keeps its stamp; one Ready bin less.
pub fn emitted(q: u64, word: Word) -> u64 {
    match word.place {
        Place::Field(Field::Ready) => word.old.saturating_sub(1),
        Place::State(here) if here == q => 0,
        _ => emptied(Set::Bin(q), word),
    }
}

// A pick of bin q: the next one starts behind it.
pub fn picked(cell: Cell<'_>, q: u64, word: Word) -> u64 {
    match word.place {
        Place::Field(Field::NextBin) => behind(q, 1, cell.run.layout.places()),
        _ => emitted(q, word),
    }
}

// A tick.
#[derive(Clone, Copy)]
pub struct Tick<'a> {
    pub cell: Cell<'a>,
    pub samples: Samples,
}

impl Tick<'_> {
    // The entry that a register has d ticks ago after the tick: the new sample's, or the one that stood before it.
    fn entry(self, stream: Stream, d: u64) -> u64 {
        match (d.checked_sub(1), stream) {
            (Some(before), _) => self.cell.word(Place::Entry(stream, before)),
            (None, Stream::X) => self.samples.x().entry(),
            (None, Stream::Y) => self.samples.y().entry(),
        }
    }

    // What the tick adds at lag k, by the samples of two entries.
    fn adds(self, k: u64, quantity: Quantity) -> u64 {
        let lags = self.cell.run.shape.lags;
        let x = self.entry(Stream::X, k.div_ceil(2));
        let y = self.entry(Stream::Y, (lags / 2).saturating_sub(k / 2));
        pair(Sample::of_entry(x), Sample::of_entry(y), quantity)
    }

    // What the tick adds to word i of a row; a sum is stored as sum + 128 × ticks.
    fn row_adds(self, i: u64) -> u64 {
        match (i.checked_sub(3), i) {
            (None, 0) => 1,
            (None, 1) => self.adds(0, Quantity::Valid),
            (None, _) => self.adds(self.cell.run.shape.lags / 2, Quantity::Valid),
            (Some(sum), _) => {
                let quantity = if sum % 2 == 0 {
                    Quantity::InPhase
                } else {
                    Quantity::Quadrature
                };
                PEAK.wrapping_add(self.adds(sum / 2, quantity))
            }
        }
    }

    // Open or loss 6, then the registers.
    pub fn word(self, word: Word) -> u64 {
        let to = if self.cell.is_full() {
            Set::Lost(Loss::Holdoff)
        } else {
            Set::Open
        };
        match word.place {
            Place::Row(set, i) if set == to => word.old.wrapping_add(self.row_adds(i)),
            Place::Entry(stream, d) => self.entry(stream, d),
            _ => word.old,
        }
    }
}
