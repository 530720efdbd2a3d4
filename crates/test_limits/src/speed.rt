// Request 2026-04: a speed dump at the limits of its buffer, of Open, of the losses and of t.
use crate::binning::with_row;
use lta_spec::Refusal;
use test_lib_memory::base::{Base, NOW, PLAIN, Variant, shape, with_word};
use test_lib_memory::map::{Set, State};
use test_lib_row::held_to;
use test_lib_rules::call::{ADD, Answer, Call, LOSSES, Op, SPEED_DUMP, needed};
use test_lib_tools::report::Tally;

// The answer: "38 + 8N" of N = 2.
const SENT: u64 = 54;

// A speed dump with so many bytes at tick t, where a set of the cell has so many ticks, all valid, and sums of
// 128 × ticks in size.
#[derive(Clone, Copy)]
struct Dump {
    occupied: bool,
    bytes: u64,
    now: u64,
    set: Set,
    ticks: u64,
}

// One within every limit.
const WITHIN: Dump = Dump {
    occupied: true,
    bytes: SENT,
    now: NOW,
    set: Set::Open,
    ticks: 3,
};

impl Dump {
    fn is_due(self, t: &mut Tally, due: Answer) {
        let variant = Variant {
            occupied: self.occupied,
            command: ADD,
            state: State::Ready,
            ..PLAIN
        };
        let timed = with_word(Base::of(2, variant).memory(), 0, self.now);
        let old = with_row(timed, self.set, self.ticks);
        let op = Op::Dump {
            command: SPEED_DUMP,
            bank: 1,
            phase: 0,
        };
        let call = Call {
            op,
            cell: 1,
            words: needed(shape(2)),
            bytes: self.bytes,
        };
        held_to(t, shape(2), &old, call, due);
    }
}

// 10 "applies to it last", where the buffer is shorter than its frame.
const ROOM: [u64; 8] = [0, 1, 50, 53, 54, 55, 58, 1300];

// Ticks of Open: none, one, and all 524,288; one more is 11.
const TICKS: [(u64, Answer); 4] = [
    (0, Ok(SENT)),
    (1, Ok(SENT)),
    (524_288, Ok(SENT)),
    (524_289, Err(Refusal::Damaged)),
];

// t: that of Open's stamp, and the last; before that stamp, and past the last.
const TIMES: [(u64, Answer); 4] = [
    (900, Ok(SENT)),
    (2_147_483_648, Ok(SENT)),
    (899, Err(Refusal::Damaged)),
    (2_147_483_649, Err(Refusal::Damaged)),
];

// Each loss at its limit too: a speed dump takes none past it, whatever Held is, since it adds to none.
pub fn dumps() -> Tally {
    let mut t = Tally::default();
    for occupied in [false, true] {
        for bytes in ROOM {
            let due = if bytes < SENT {
                Err(Refusal::ShortBuffer)
            } else {
                Ok(SENT)
            };
            Dump {
                occupied,
                bytes,
                ..WITHIN
            }
            .is_due(&mut t, due);
        }
        for loss in LOSSES {
            let set = Set::Lost(loss);
            Dump {
                occupied,
                set,
                ticks: 2_147_483_648,
                ..WITHIN
            }
            .is_due(&mut t, Ok(SENT));
        }
    }
    for (ticks, due) in TICKS {
        Dump { ticks, ..WITHIN }.is_due(&mut t, due);
    }
    for (now, due) in TIMES {
        Dump { now, ..WITHIN }.is_due(&mut t, due);
    }
    t
}
