// The arguments of the calls, at both sides of every limit and far past it.
use test_lib_memory::base::{Base, PLAIN, Variant, shape};
use test_lib_memory::map::State;
use test_lib_row::modelled;
use test_lib_rules::call::{ADD, Bin, Call, LAST, Op, SPEED_DUMP, needed};
use test_lib_rules::history::Samples;
use test_lib_tools::report::Tally;

// A call on the base memory of N = 2, with the bytes that it takes: two cells' samples, a speed frame's, a page's, a
// frame's.
pub fn on_base(op: Op, cell: u64) -> Call {
    let bytes = match op {
        Op::Tick(_) => 6,
        Op::Dump { .. } => 54,
        Op::Page => 533,
        _ => 50,
    };
    Call {
        op,
        cell,
        words: needed(shape(2)),
        bytes,
    }
}

// The calls, a speed dump behind the others.
const CALLS: [Op; 9] = [
    Op::Tick(Samples {
        x: 1,
        y: 1,
        validity: 3,
    }),
    Op::Dump {
        command: LAST,
        bank: 1,
        phase: 0,
    },
    Op::Integrate,
    Op::Emit(Bin { bank: 1, bin: 0 }),
    Op::Reading { lag: 1, loss: 1 },
    Op::Forecast,
    Op::Page,
    Op::Pick(None),
    Op::Dump {
        command: SPEED_DUMP,
        bank: 1,
        phase: 0,
    },
];

// Values of an argument.
const VALUES: [u64; 14] = [
    0,
    1,
    2,
    3,
    4,
    5,
    6,
    7,
    8,
    4_294_967_295,
    4_294_967_296,
    4_294_967_297,
    9_223_372_036_854_775_808,
    u64::MAX,
];

// What is changed: the cell; X, command, bank or lag; Y, bank, data bin or loss; a phase bin; the words and the bytes
// lent, where a length that the test cannot lend is cut to one that it can. Of a page and of a pick the last two are
// all.
#[derive(Clone, Copy)]
enum Argument {
    Cell,
    First,
    Second,
    Phase,
    Words,
    Bytes,
}

fn low_byte(v: u64) -> u8 {
    (v % 256) as u8
}

fn with_first(op: Op, v: u64) -> Op {
    match op {
        Op::Tick(samples) => Op::Tick(Samples {
            x: low_byte(v),
            ..samples
        }),
        Op::Dump { bank, phase, .. } => Op::Dump {
            command: v,
            bank,
            phase,
        },
        Op::Emit(bin) => Op::Emit(Bin { bank: v, ..bin }),
        Op::Reading { loss, .. } => Op::Reading { lag: v, loss },
        _ => op,
    }
}

fn with_second(op: Op, v: u64) -> Op {
    match op {
        Op::Tick(samples) => Op::Tick(Samples {
            y: low_byte(v),
            ..samples
        }),
        Op::Dump { command, phase, .. } => Op::Dump {
            command,
            bank: v,
            phase,
        },
        Op::Emit(bin) => Op::Emit(Bin { bin: v, ..bin }),
        Op::Reading { lag, .. } => Op::Reading { lag, loss: v },
        _ => op,
    }
}

fn with_phase(op: Op, v: u64) -> Op {
    match op {
        Op::Dump { command, bank, .. } => Op::Dump {
            command,
            bank,
            phase: v,
        },
        _ => op,
    }
}

// The call with a value of an argument, the others being right.
fn with(op: Op, argument: Argument, v: u64) -> Call {
    let k = on_base(op, 1);
    let length = v % 512 % 300;
    match argument {
        Argument::Cell => Call { cell: v, ..k },
        Argument::First => Call {
            op: with_first(op, v),
            ..k
        },
        Argument::Second => Call {
            op: with_second(op, v),
            ..k
        },
        Argument::Phase => Call {
            op: with_phase(op, v),
            ..k
        },
        Argument::Words => Call { words: length, ..k },
        Argument::Bytes => Call { bytes: length, ..k },
    }
}

// Each value of an argument: the first seven where Held is unoccupied.
fn values(t: &mut Tally, op: Op, argument: Argument) {
    for (i, &v) in VALUES.iter().enumerate() {
        let variant = Variant {
            occupied: i >= 7,
            command: ADD,
            state: State::Ready,
            ..PLAIN
        };
        let old = Base::of(2, variant).memory();
        modelled(t, shape(2), &old, with(op, argument, v));
    }
}

pub fn arguments() -> Tally {
    let mut t = Tally::default();
    for op in CALLS {
        values(&mut t, op, Argument::Cell);
        values(&mut t, op, Argument::First);
        values(&mut t, op, Argument::Second);
        values(&mut t, op, Argument::Phase);
        values(&mut t, op, Argument::Words);
        values(&mut t, op, Argument::Bytes);
    }
    t
}
