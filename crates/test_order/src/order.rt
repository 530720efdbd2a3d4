// "Where several apply, the order stands after each group": each call with every choice of the defects that it may be
// told of. The first in the papers' order is due. A dump comes three times, with another word damaged, and once more
// with command 011; a pick four times, a page, an integration and an emission twice; a tick twice, with its bytes wrong
// in another way.
use lta_spec::Refusal::{
    BadCommand, BadShape, BadValidity, Damaged, NoBin, NoCell, NoLag, NotReady, NothingHeld,
    NothingReady, RunFull, ShortBuffer, WrongMemory, WrongSamples,
};
use lta_spec::{Loss, Refusal, Shape};
use test_lib_memory::base::{BINS, Base, Memory, NOW, PLAIN, Variant, shape, with_word};
use test_lib_memory::cells::LONG;
use test_lib_memory::due::says;
use test_lib_memory::map::{Field, Place, Set, State, Stream};
use test_lib_row::held_to;
use test_lib_rules::call::{ADD, Bin, Call, Op, SAVE, SPEED_DUMP, needed};
use test_lib_rules::history::Samples;
use test_lib_tools::report::Tally;

const LAGS: u8 = 2;

// The calls, each with an order of its own. The defects of a tick are in the last cell, or in the first one.
#[derive(Clone, Copy, PartialEq, Eq)]
enum Kind {
    Tick,
    FirstCellTick,
    Dump,
    SpeedDump,
    Integrate,
    Emit,
    Reading,
    Forecast,
    Page,
    Pick,
}

// "Setup and every call on a run test 1, then 2, first".
const FIRST: [Refusal; 2] = [BadShape, WrongMemory];

impl Kind {
    // What follows them: "Then 11", and 19 "tested after 3 and before 4"; "Order 5, 6, 7, 11", "Order 5, 11, then 8",
    // and so on; "by 10 after 1, 2 and 11"; 20 "tested after 1, 2 and 11 and before 10"; "Refusal 6 no longer covers
    // 011; 10 applies to it last".
    fn order(self) -> &'static [Refusal] {
        match self {
            Kind::Tick | Kind::FirstCellTick => &[WrongSamples, BadValidity, RunFull, Damaged],
            Kind::Dump => &[NoCell, BadCommand, NoBin, Damaged],
            Kind::SpeedDump => &[NoCell, NoBin, Damaged, ShortBuffer],
            Kind::Integrate => &[NoCell, Damaged, NothingHeld],
            Kind::Emit => &[NoCell, NoBin, Damaged, NotReady, ShortBuffer],
            Kind::Reading => &[NoCell, NoLag, Damaged],
            Kind::Forecast => &[NoCell, Damaged],
            Kind::Page => &[Damaged, ShortBuffer],
            Kind::Pick => &[Damaged, NothingReady, ShortBuffer],
        }
    }
}

// Past every limit.
const PAST: u64 = LONG + 1;

// What 11 is told of in a group: a word of the last cell, or none for the run's, the cell at which the next pick
// starts; and what stands there. A speed dump is told of Held, which it leaves as it is. In the second group of pages
// the ticks are within their limit, and the six pass theirs together; in the others there stand one Ready bin more than
// there are, bin 2B, cell C, and 2B + 1 Ready bins.
const GROUPS: [(Kind, Option<Place>, u64); 18] = [
    (Kind::Tick, Some(Place::Entry(Stream::Y, 0)), PAST),
    (Kind::Dump, Some(Place::Field(Field::OpenStamp)), PAST),
    (Kind::Integrate, Some(Place::Field(Field::HeldStamp)), PAST),
    (Kind::Emit, Some(Place::Stamp(BINS)), PAST),
    (
        Kind::Reading,
        Some(Place::Row(Set::Lost(Loss::Holdoff), 0)),
        PAST,
    ),
    (Kind::Forecast, Some(Place::Field(Field::OpenStamp)), PAST),
    (
        Kind::Page,
        Some(Place::Row(Set::Lost(Loss::Ordered), 0)),
        PAST,
    ),
    (Kind::Pick, Some(Place::Stamp(BINS)), PAST),
    (Kind::SpeedDump, Some(Place::Field(Field::HeldStamp)), PAST),
    (Kind::Dump, Some(Place::Field(Field::Block)), PAST),
    (Kind::Dump, Some(Place::Field(Field::LastCommand)), PAST),
    (
        Kind::Page,
        Some(Place::Row(Set::Lost(Loss::Ordered), 0)),
        LONG,
    ),
    (Kind::FirstCellTick, Some(Place::Entry(Stream::Y, 0)), PAST),
    (Kind::Pick, Some(Place::Field(Field::Ready)), 3),
    (Kind::Pick, Some(Place::Field(Field::NextBin)), 2 * BINS),
    (Kind::Pick, None, 2),
    (
        Kind::Integrate,
        Some(Place::Field(Field::Ready)),
        2 * BINS + 1,
    ),
    (Kind::Emit, Some(Place::Field(Field::Ready)), 2 * BINS + 1),
];

// A call with those defects of its order whose bits are set in a mask.
#[derive(Clone, Copy)]
struct Case {
    kind: Kind,
    mask: u8,
}

impl Case {
    fn is_chosen(self, j: usize) -> bool {
        j < 8 && (self.mask >> j) % 2 == 1
    }

    // The first defect in the call's order.
    fn first(self) -> Option<Refusal> {
        let mut defects = FIRST.iter().chain(self.kind.order()).enumerate();
        defects
            .find(|&(j, _)| self.is_chosen(j))
            .map(|(_, &defect)| defect)
    }

    fn has(self, defect: Refusal) -> bool {
        let mut defects = FIRST.iter().chain(self.kind.order()).enumerate();
        defects.any(|(j, &here)| here == defect && self.is_chosen(j))
    }

    fn choose(self, defect: Refusal, wrong: u64, right: u64) -> u64 {
        if self.has(defect) { wrong } else { right }
    }

    // 1: no tick of a second.
    fn shape(self) -> Shape {
        let s = shape(u64::from(LAGS));
        Shape {
            rate: self.choose(BadShape, 0, s.rate),
            ..s
        }
    }

    // 3: a byte more, or in the first cell's ticks a byte less. 10: a byte less than a frame, or than a page; a dump
    // but 011 is lent no byte, and never told of it.
    fn bytes(self) -> u64 {
        match self.kind {
            Kind::Tick => self.choose(WrongSamples, 7, 6),
            Kind::FirstCellTick => self.choose(WrongSamples, 5, 6),
            Kind::Dump => 0,
            Kind::Page => self.choose(ShortBuffer, 532, 533),
            Kind::SpeedDump => self.choose(ShortBuffer, 53, 54),
            _ => self.choose(ShortBuffer, 49, 50),
        }
    }

    // 19: bit 7 in the last cell, both of whose samples are valid; or bit 2 in the first cell, neither of whose samples
    // is, which a byte less does not cut off.
    fn samples(self) -> Samples {
        let wrong = if self.kind == Kind::Tick { 0x83 } else { 0x04 };
        let validity = if self.has(BadValidity) { wrong } else { 3 };
        Samples {
            x: 1,
            y: 4,
            validity,
        }
    }

    // 6: command 101. 7: bank 2, data bin B. 12: lag N.
    fn op(self) -> Op {
        let bank = self.choose(NoBin, 2, 1);
        match self.kind {
            Kind::Tick | Kind::FirstCellTick => Op::Tick(self.samples()),
            Kind::Dump => {
                let command = self.choose(BadCommand, 0b101, SAVE);
                Op::Dump {
                    command,
                    bank,
                    phase: 0,
                }
            }
            Kind::SpeedDump => Op::Dump {
                command: SPEED_DUMP,
                bank,
                phase: 0,
            },
            Kind::Integrate => Op::Integrate,
            Kind::Emit => Op::Emit(Bin {
                bank: 1,
                bin: self.choose(NoBin, BINS, 0),
            }),
            Kind::Reading => Op::Reading {
                lag: self.choose(NoLag, u64::from(LAGS), 1),
                loss: 4,
            },
            Kind::Forecast => Op::Forecast,
            Kind::Page => Op::Page,
            Kind::Pick => Op::Pick(None),
        }
    }

    // 2: a word more. 5: cell C. The first cell's ticks are about that one, all other calls about the last.
    fn call(self) -> Call {
        let words = needed(shape(u64::from(LAGS)));
        let cell = if self.kind == Kind::FirstCellTick {
            0
        } else {
            1
        };
        Call {
            op: self.op(),
            cell: self.choose(NoCell, 2, cell),
            words: self.choose(WrongMemory, words.wrapping_add(1), words),
            bytes: self.bytes(),
        }
    }

    // Memory of Ready bins, and of a Held that is occupied and empty; 9: a bin that is Filling; 20: no bin that is
    // Ready.
    fn variant(self) -> Variant {
        let filling = self.has(NotReady) || self.has(NothingReady);
        Variant {
            occupied: !self.has(NothingHeld),
            command: ADD,
            state: if filling {
                State::Filling
            } else {
                State::Ready
            },
            ready: !self.has(NothingReady),
            ..PLAIN
        }
    }

    // 4: t is 2,147,483,648; 11: a word is damaged.
    fn memory(self, place: Option<Place>, x: u64) -> Memory {
        let base = Base::of(LAGS, self.variant());
        let at = place.map_or(base.layout.start(2), |place| base.layout.at_cell(1, place));
        let timed = with_word(base.memory(), 0, self.choose(RunFull, LONG, NOW));
        if self.has(Damaged) {
            with_word(timed, at, x)
        } else {
            timed
        }
    }
}

// The first defect in the call's order is due, or what the model says where there is none.
pub fn refusals() -> Tally {
    let mut t = Tally::default();
    for (kind, place, x) in GROUPS {
        for mask in 0..128 {
            let case = Case { kind, mask };
            let old = case.memory(place, x);
            let due = case
                .first()
                .map_or_else(|| says(case.shape(), &old, case.call()), Err);
            held_to(&mut t, case.shape(), &old, case.call(), due);
        }
    }
    t
}
