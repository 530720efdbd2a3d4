// "Shape of a run", at both sides of every limit and far past it.
use crate::arguments::on_base;
use lta_spec::{Refusal, Shape};
use test_lib_calls::ask;
use test_lib_memory::base::{Base, PLAIN, Variant, shape};
use test_lib_memory::map::State;
use test_lib_row::held_to;
use test_lib_rules::call::{ADD, Answer, Bin, Op, needed, shaped};
use test_lib_rules::history::Samples;
use test_lib_tools::report::Tally;

// Shapes of which one value at a time is changed, from C to Z; the second with S + M = 256.
const EARLY: [u64; 7] = [2, 4, 5, 1, 0, 4, 7];

const LATE: [u64; 7] = [2, 4, 5, 2, 254, 4, 7];

// What each value of the first is changed to within its limits, and past one. The greatest would wrap to a good value
// if they were cut to 32 bits.
const WITHIN: [[u64; 2]; 7] = [
    [1, 16],
    [2, 128],
    [1, 1000],
    [1, 256],
    [0, 255],
    [1, 256_000_000],
    [0, 2_147_483_647],
];

const PAST: [&[u64]; 7] = [
    &[0, 17, 4_294_967_295, 4_294_967_298, u64::MAX],
    &[
        0,
        1,
        3,
        127,
        129,
        130,
        4_294_967_295,
        4_294_967_300,
        u64::MAX,
    ],
    &[0, 1001, 4_294_967_295, 4_294_967_301, u64::MAX],
    &[0, 257, 4_294_967_295, 4_294_967_297, u64::MAX],
    &[256, 4_294_967_295, 4_294_967_296, u64::MAX],
    &[0, 256_000_001, 4_294_967_295, 4_294_967_300, u64::MAX],
    &[2_147_483_648, 4_294_967_295, 4_294_967_303, u64::MAX],
];

// M and S of the second, by their places.
const M: usize = 3;

const S: usize = 4;

const LATE_WITHIN: [(usize, u64); 4] = [(M, 1), (M, 2), (S, 0), (S, 254)];

// S + M is 257, 257, and would wrap to 0, 1, 0.
const LATE_PAST: [(usize, u64); 5] = [
    (S, 255),
    (M, 3),
    (S, u64::MAX - 1),
    (S, u64::MAX),
    (M, u64::MAX - 253),
];

fn changed(mut values: [u64; 7], which: usize, x: u64) -> Shape {
    if let Some(value) = values.get_mut(which) {
        *value = x;
    }
    shaped(values)
}

// "never above C × (2B + 32) × (4N + 64)".
fn is_bounded(s: Shape) -> bool {
    let bins = s.bins.saturating_mul(2).saturating_add(32);
    let lags = s.lags.saturating_mul(4).saturating_add(64);
    needed(s) <= s.cells.saturating_mul(bins).saturating_mul(lags)
}

// Does setup say this to so many words, and leave them as they are where it refuses, and all 0 where not?
fn sets_up(s: Shape, words: u64, due: Answer) -> bool {
    let mut mem = [5; 40000];
    let told = ask::setup(s, &mut mem, words) == Some(due);
    let cleared = if due.is_ok() { words as usize } else { 0 };
    told && mem
        .iter()
        .enumerate()
        .all(|(i, &word)| word == if i < cleared { 0 } else { 5 })
}

// A good shape: its words; setup on none, and on so many where the test has them, and on one word less and more.
fn good(t: &mut Tally, s: Shape) {
    let words = needed(s);
    let wrong = Err(Refusal::WrongMemory);
    t.note(ask::words_needed(s) == Ok(words) && is_bounded(s));
    t.row(sets_up(s, 0, wrong), true);
    if (2..40000).contains(&words) {
        t.note(sets_up(s, words, Ok(0)));
        t.row(sets_up(s, words - 1, wrong), true);
        t.row(sets_up(s, words + 1, wrong), true);
    }
}

// Every call on a run, right but for its shape.
const CALLS: [Op; 8] = [
    Op::Tick(Samples {
        x: 1,
        y: 0,
        validity: 3,
    }),
    Op::Dump {
        command: ADD,
        bank: 0,
        phase: 0,
    },
    Op::Integrate,
    Op::Emit(Bin { bank: 1, bin: 0 }),
    Op::Reading { lag: 1, loss: 0 },
    Op::Forecast,
    Op::Page,
    Op::Pick(None),
];

// A bad shape: 1, from the size call, from setup on no words and on those of a good shape, and from every call.
fn bad(t: &mut Tally, s: Shape) {
    let wrong = Err(Refusal::BadShape);
    t.row(ask::words_needed(s) == wrong, true);
    t.row(sets_up(s, 0, wrong), true);
    t.row(sets_up(s, needed(shape(2)), wrong), true);
    let variant = Variant {
        occupied: true,
        command: ADD,
        state: State::Ready,
        ..PLAIN
    };
    let old = Base::of(2, variant).memory();
    for op in CALLS {
        held_to(t, s, &old, on_base(op, 1), wrong);
    }
}

pub fn shapes() -> Tally {
    let mut t = Tally::default();
    for (which, values) in WITHIN.iter().enumerate() {
        for &x in values {
            good(&mut t, changed(EARLY, which, x));
        }
    }
    for (which, x) in LATE_WITHIN {
        good(&mut t, changed(LATE, which, x));
    }
    for (which, values) in PAST.iter().enumerate() {
        for &x in *values {
            bad(&mut t, changed(EARLY, which, x));
        }
    }
    for (which, x) in LATE_PAST {
        bad(&mut t, changed(LATE, which, x));
    }
    t
}
