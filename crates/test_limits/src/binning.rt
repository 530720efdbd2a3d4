// "Data bin", the block of a dump, and sets at the limit of a bin.
use crate::arguments::on_base;
use lta_spec::{Refusal, Shape};
use test_lib_calls::ask;
use test_lib_memory::base::{BINS, Base, Memory, PLAIN, Variant, shape};
use test_lib_memory::map::{CELLS, Field, Layout, Place, Set, State, greatest};
use test_lib_row::held_to;
use test_lib_rules::call::{
    ADD, Answer, Call, IDLE, LAST, ORDERED, Op, SAVE, SPEED_DUMP, needed, shaped, stored_command,
};
use test_lib_tools::bytes::word;
use test_lib_tools::report::Tally;
use test_lib_tools::words::{get, put};

// A dump in a run that is fresh, but for the block and the last command that are stored.
#[derive(Clone, Copy)]
struct Dump {
    shape: Shape,
    command: u64,
    phase: u64,
    // Counted from S.
    block: u64,
    last: Option<u64>,
}

// A word of the only cell.
fn at(field: Field) -> u64 {
    CELLS + field as u64
}

impl Dump {
    fn call(self) -> Call {
        let bytes = if self.command == SPEED_DUMP { 54 } else { 0 };
        let op = Op::Dump {
            command: self.command,
            bank: 1,
            phase: self.phase,
        };
        Call {
            op,
            cell: 0,
            words: needed(self.shape),
            bytes,
        }
    }

    // What it says where Held is unoccupied: kept, the length of a speed frame of N = 2, loss 1, or 7.
    fn answer(self) -> u64 {
        match self.command {
            SPEED_DUMP => 54,
            ORDERED => 1,
            IDLE => 7,
            _ => 0,
        }
    }

    // The data bin in the label of a dump that is kept, or in W1 of a speed frame.
    fn told_bin(self, mem: &[u64], out: &[u8]) -> Option<u64> {
        match self.command {
            SPEED_DUMP => Some(u64::from(word(out, 1) >> 16) % 32768),
            SAVE | ADD | LAST => Some(get(mem, at(Field::Bin))),
            _ => None,
        }
    }

    // Is the block as it is due, and the data bin where the dump tells it?
    fn is_counted(self, mem: &[u64], out: &[u8], bin: u64) -> bool {
        let block = bin.saturating_sub(self.phase.saturating_mul(self.shape.blocks));
        let labelled = self.told_bin(mem, out).is_none_or(|told| told == bin);
        labelled && get(mem, at(Field::Block)) == block
    }

    // Does it do what is due: a data bin with the next block, or a refusal, where nothing has changed?
    fn agrees(self, due: Answer) -> bool {
        let mut mem = [0; 20000];
        let mut out = [0; 54];
        put(&mut mem, at(Field::Block), self.block);
        put(&mut mem, at(Field::LastCommand), stored_command(self.last));
        let old = mem;
        let told = ask::told(self.shape, &mut mem, self.call(), &mut out);
        match due {
            Ok(bin) => told == Some(Ok(self.answer())) && self.is_counted(&mem, &out, bin),
            Err(refusal) => told == Some(Err(refusal)) && mem == old,
        }
    }
}

// Cases of the data bin rule: B, M and S, the phase bin of a dump, and the block that is stored behind a 000, counted
// from S. "no part of a phase bin is used"; "A stored block outside S to S + M - 1 .. is 11"; 7 where both apply. From
// the 17th on M above B, three phase bins of 256 blocks, and numbers that would wrap to a good one.
const CASES: [([u64; 5], Answer); 28] = [
    ([1000, 16, 0, 61, 15], Ok(976)),
    ([1000, 16, 0, 61, 14], Ok(991)),
    ([1000, 16, 0, 61, 16], Err(Refusal::Damaged)),
    ([1000, 16, 0, 62, 15], Err(Refusal::NoBin)),
    ([1000, 4, 0, 249, 2], Ok(999)),
    ([1000, 4, 0, 250, 2], Err(Refusal::NoBin)),
    ([1000, 1, 0, 999, 0], Ok(999)),
    ([1000, 1, 0, 1000, 0], Err(Refusal::NoBin)),
    ([5, 2, 3, 0, 1], Ok(0)),
    ([5, 2, 3, 1, 0], Ok(3)),
    ([5, 2, 3, 0, 2], Err(Refusal::Damaged)),
    ([5, 2, 3, 0, 3], Err(Refusal::Damaged)),
    ([5, 2, 3, 2, 2], Err(Refusal::NoBin)),
    ([5, 2, 254, 1, 0], Ok(3)),
    ([5, 2, 254, 1, 1], Ok(2)),
    ([5, 2, 254, 1, 254], Err(Refusal::Damaged)),
    ([1, 256, 0, 0, 0], Err(Refusal::NoBin)),
    ([1000, 256, 0, 2, 254], Ok(767)),
    ([1000, 256, 0, 3, 0], Err(Refusal::NoBin)),
    ([2, 1, 0, u64::MAX, 0], Err(Refusal::NoBin)),
    ([2, 1, 0, 4_294_967_295, 0], Err(Refusal::NoBin)),
    ([2, 1, 0, 4_294_967_296, 0], Err(Refusal::NoBin)),
    ([2, 2, 0, 9_223_372_036_854_775_807, 0], Err(Refusal::NoBin)),
    ([2, 2, 0, 9_223_372_036_854_775_808, 0], Err(Refusal::NoBin)),
    ([5, 2, 3, 0, u64::MAX], Err(Refusal::Damaged)),
    ([5, 2, 3, 0, 4_294_967_295], Err(Refusal::Damaged)),
    ([5, 2, 3, 0, 4_294_967_296], Err(Refusal::Damaged)),
    (
        [1000, 256, 0, 72_057_594_037_927_935, 0],
        Err(Refusal::NoBin),
    ),
];

// A kept dump has the data bin in its label, a speed dump in its frame.
pub fn data_bins() -> Tally {
    let mut t = Tally::default();
    for command in [SAVE, SPEED_DUMP] {
        for ([bins, blocks, start, phase, block], due) in CASES {
            let shape = shaped([1, 2, bins, blocks, start, 4, 0]);
            let dump = Dump {
                shape,
                command,
                phase,
                block,
                last: Some(SAVE),
            };
            t.row(dump.agrees(due), due.is_err());
        }
    }
    t
}

// The block after a dump where there are three, counted from S, for each block before it.
const NEXT: [u64; 3] = [1, 2, 0];

const START: [u64; 3] = [0, 0, 0];

const SAME: [u64; 3] = [0, 1, 2];

// That of each command that is accepted, for each last command.
const LASTS: [Option<u64>; 5] = [None, Some(SAVE), Some(ADD), Some(LAST), Some(ORDERED)];

const BLOCKS: [(u64, [[u64; 3]; 5]); 6] = [
    (SAVE, [START, NEXT, NEXT, NEXT, NEXT]),
    (ADD, [START, NEXT, NEXT, NEXT, NEXT]),
    (LAST, [START, START, START, NEXT, NEXT]),
    (SPEED_DUMP, [START, NEXT, NEXT, NEXT, NEXT]),
    (ORDERED, [START; 5]),
    (IDLE, [SAME; 5]),
];

pub fn blocks() -> Tally {
    let mut t = Tally::default();
    let shape = shaped([1, 2, 3, 3, 5, 4, 0]);
    for (command, after) in BLOCKS {
        for (last, due) in LASTS.into_iter().zip(after) {
            for (block, due) in (0..).zip(due) {
                t.note(Dump {
                    shape,
                    command,
                    phase: 0,
                    block,
                    last,
                }
                .agrees(Ok(due)));
            }
        }
    }
    t
}

// The ticks of a bin and of Held, and whether they pass 16,777,215, by one.
const WIDE: [(u64, u64, bool); 6] = [
    (16_777_214, 1, false),
    (16_777_214, 2, true),
    (16_777_215, 0, false),
    (16_777_215, 1, true),
    (16_252_927, 524_288, false),
    (16_252_928, 524_288, true),
];

// "Command 001 or 010 where the joint set would pass 16,777,215 members: Held goes to loss 5". 000 replaces whatever is
// there; with 010 the bin is Ready all the same.
pub fn wide() -> Tally {
    let mut t = Tally::default();
    for (bin, held, past) in WIDE {
        for command in [SAVE, ADD, LAST] {
            let variant = Variant {
                occupied: true,
                command,
                state: State::Filling,
                ..PLAIN
            };
            let filled = with_row(Base::of(2, variant).memory(), Set::Bin(BINS), bin);
            let old = with_row(filled, Set::Held, held);
            let due = match command {
                SAVE => 4,
                _ if past => 5,
                _ => 0,
            };
            held_to(&mut t, shape(2), &old, on_base(Op::Integrate, 1), Ok(due));
        }
    }
    t
}

// Where words of the last cell stand in the base memory of N = 2.
pub const BASE: Layout = Layout {
    lags: 2,
    bins: BINS as u16,
};

// Memory whose last cell has so many ticks in a set, all valid, with the sums 128 × ticks and -128 × ticks.
pub fn with_row(mut memory: Memory, set: Set, ticks: u64) -> Memory {
    let most = greatest(ticks);
    for (i, word) in (0..).zip([ticks, ticks, ticks, most, 0, most, 0]) {
        put(&mut memory, BASE.at_cell(1, Place::Row(set, i)), word);
    }
    memory
}
