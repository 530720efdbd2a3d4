// "Whoever writes in work memory": every word of memory in turn gets every value at or next to a limit, in every
// variant that matters to a call. Refusal 11 must be told where a part that the call tests breaks a clause, and only
// there; a bad part that the call does not test stays as it is.
use test_lib_memory::base::{Base, NOW, PLAIN, Variant, shape, with_word};
use test_lib_memory::map::{State, greatest};
use test_lib_row::modelled;
use test_lib_rules::call::{ADD, Bin, Call, IDLE, LAST, ORDERED, Op, SAVE, SPEED_DUMP, needed};
use test_lib_rules::history::Samples;
use test_lib_rules::page;
use test_lib_tools::bytes::Kind;
use test_lib_tools::report::Tally;

// The values of a word that stands in a row of so many ticks. What a call would take past 2,147,483,648 ticks is 1 of a
// tick, 3 of Open, 5 of Held, 7 of a Filling bin, or 524,288.
fn values(word: u64, ticks: u64) -> [u64; 36] {
    let most = greatest(ticks);
    [
        0,
        1,
        2,
        3,
        4,
        5,
        6,
        7,
        8,
        511,
        512,
        ticks,
        ticks.saturating_add(1),
        most,
        most.saturating_add(1),
        NOW,
        NOW + 1,
        524_288,
        524_289,
        16_777_210,
        16_777_211,
        16_777_215,
        16_777_216,
        2_146_959_360,
        2_146_959_361,
        2_147_483_641,
        2_147_483_642,
        2_147_483_643,
        2_147_483_644,
        2_147_483_645,
        2_147_483_646,
        2_147_483_647,
        2_147_483_648,
        2_147_483_649,
        u64::MAX,
        word,
    ]
}

// A call on the last cell, with the bytes that it takes: samples of both cells, a page's, a frame's.
fn call(lags: u64, op: Op) -> Call {
    let bytes = match op {
        Op::Tick(_) => 6,
        Op::Page => page::length(2),
        _ => op.frame().unwrap_or(Kind::Binned).length(lags) as u64,
    };
    Call {
        op,
        cell: 1,
        words: needed(shape(lags)),
        bytes,
    }
}

// Every value of every word of a variant with N lags.
fn sweep(t: &mut Tally, lags: u8, op: Op, variant: Variant) {
    let base = Base::of(lags, variant);
    let memory = base.memory();
    let lags = u64::from(lags);
    let call = call(lags, op);
    for w in 0..call.words {
        let word = base.word(w);
        for x in values(word, base.ticks_at(w).unwrap_or(word)) {
            modelled(t, shape(lags), &with_word(memory, w, x), call);
        }
    }
}

// A call that only Open matters to.
fn of_open(lags: u8, op: Op) -> Tally {
    let mut t = Tally::default();
    for full in [false, true] {
        sweep(&mut t, lags, op, Variant { full, ..PLAIN });
    }
    t
}

// Dumps, which name the only phase bin.
fn dumps(lags: u8, commands: &[u64]) -> Tally {
    let mut t = Tally::default();
    for &command in commands {
        for occupied in [false, true] {
            for full in [false, true] {
                let op = Op::Dump {
                    command,
                    bank: 0,
                    phase: 0,
                };
                sweep(
                    &mut t,
                    lags,
                    op,
                    Variant {
                        occupied,
                        full,
                        ..PLAIN
                    },
                );
            }
        }
    }
    t
}

const STATES: [State; 3] = [State::Free, State::Filling, State::Ready];

fn integrations(lags: u8) -> Tally {
    let mut t = Tally::default();
    for state in STATES {
        for command in [SAVE, ADD, LAST] {
            for occupied in [false, true] {
                let variant = Variant {
                    occupied,
                    command,
                    state,
                    ..PLAIN
                };
                sweep(&mut t, lags, Op::Integrate, variant);
            }
        }
    }
    t
}

// Of the bin of Held's label.
fn emissions(lags: u8) -> Tally {
    let mut t = Tally::default();
    for state in STATES {
        sweep(
            &mut t,
            lags,
            Op::Emit(Bin { bank: 1, bin: 0 }),
            Variant { state, ..PLAIN },
        );
    }
    t
}

// The bin of Held's label in each state, the first bin Ready or not; in two of them no bin is.
fn picks(lags: u8) -> Tally {
    let mut t = Tally::default();
    for ready in [true, false] {
        for state in STATES {
            sweep(
                &mut t,
                lags,
                Op::Pick(None),
                Variant {
                    state,
                    ready,
                    ..PLAIN
                },
            );
        }
    }
    t
}

fn plain(lags: u8, op: Op) -> Tally {
    let mut t = Tally::default();
    sweep(&mut t, lags, op, PLAIN);
    t
}

// All calls with N lags.
pub fn groups(rt: &impl Print, total: &mut Tally, lags: u8) {
    let samples = Samples {
        x: 0x35,
        y: 0x2b,
        validity: 3,
    };
    let reading = Op::Reading { lag: 1, loss: 4 };
    let n = u64::from(lags);
    total.group(rt, n, "tick", of_open(lags, Op::Tick(samples)));
    total.group(rt, n, "keep", dumps(lags, &[SAVE, ADD, LAST]));
    total.group(rt, n, "discard", dumps(lags, &[ORDERED]));
    total.group(rt, n, "idle", dumps(lags, &[IDLE]));
    total.group(rt, n, "integr.", integrations(lags));
    total.group(rt, n, "emit", emissions(lags));
    total.group(rt, n, "reading", plain(lags, reading));
    total.group(rt, n, "forecast", of_open(lags, Op::Forecast));
    total.group(rt, n, "page", plain(lags, Op::Page));
    total.group(rt, n, "speed", dumps(lags, &[SPEED_DUMP]));
    total.group(rt, n, "pick", picks(lags));
}
