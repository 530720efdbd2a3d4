// Request 2026-07: an integration and an emission give 11 "where the cell's Ready number is above 2B, or is 0 though
// the bin tested is Ready, or 2B though it isn't". Where Held is unoccupied, an integration tests no bin.
use lta_spec::Refusal;
use test_lib_memory::base::{BINS, Base, PLAIN, Variant, shape, with_word};
use test_lib_memory::map::{Field, Place, State};
use test_lib_row::held_to;
use test_lib_rules::call::{ADD, Answer, Bin, Call, Op, needed};
use test_lib_tools::report::Tally;

// The numbers, where 2B is 6: is each good beside a bin that is Ready, beside one that is not, and where none is
// tested?
const NUMBERS: [(u64, bool, bool, bool); 8] = [
    (0, false, true, true),
    (1, true, true, true),
    (2, true, true, true),
    (5, true, true, true),
    (6, true, false, true),
    (7, false, false, false),
    (4_294_967_297, false, false, false),
    (u64::MAX, false, false, false),
];

// An integration of 001, one where Held is unoccupied, an emission.
#[derive(Clone, Copy, PartialEq, Eq)]
enum Kind {
    Integration,
    Unoccupied,
    Emission,
}

// What a call says where the number is good: kept, or loss 3; 8; 9, or the frame's length.
fn says(kind: Kind, ready: bool) -> Answer {
    match (kind, ready) {
        (Kind::Integration, true) => Ok(3),
        (Kind::Integration, false) => Ok(0),
        (Kind::Unoccupied, _) => Err(Refusal::NothingHeld),
        (Kind::Emission, true) => Ok(50),
        (Kind::Emission, false) => Err(Refusal::NotReady),
    }
}

// On the last cell; an emission of the bin that Held's label names.
fn call(kind: Kind) -> Call {
    let op = match kind {
        Kind::Emission => Op::Emit(Bin { bank: 1, bin: 0 }),
        _ => Op::Integrate,
    };
    Call {
        op,
        cell: 1,
        words: needed(shape(2)),
        bytes: 50,
    }
}

// The numbers beside a bin in a state.
fn numbers_beside(t: &mut Tally, kind: Kind, state: State) {
    let occupied = kind != Kind::Unoccupied;
    let base = Base::of(
        2,
        Variant {
            occupied,
            command: ADD,
            state,
            ..PLAIN
        },
    );
    let at = base.layout.at_cell(1, Place::Field(Field::Ready));
    let ready = state == State::Ready;
    for (stored, beside_ready, beside_other, untested) in NUMBERS {
        let good = match (kind, ready) {
            (Kind::Unoccupied, _) => untested,
            (_, true) => beside_ready,
            (_, false) => beside_other,
        };
        let due = if good {
            says(kind, ready)
        } else {
            Err(Refusal::Damaged)
        };
        held_to(
            t,
            shape(2),
            &with_word(base.memory(), at, stored),
            call(kind),
            due,
        );
    }
}

pub fn numbers() -> Tally {
    let mut t = Tally::default();
    for kind in [Kind::Integration, Kind::Unoccupied, Kind::Emission] {
        for state in [State::Free, State::Filling, State::Ready] {
            numbers_beside(&mut t, kind, state);
        }
    }
    t
}
