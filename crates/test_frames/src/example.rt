// Document 01's example, "EM 0 2 0 3 2 1 0 0 6 0 10 0 24", as a frame of N = 2; and the same ticks as a speed frame.
use lta_spec::{Fields, Refusal};
use test_lib_frames::ask::{comes_back, expect_read, is_normal, normal, reads_as};
use test_lib_tools::bytes::{Kind, head, put, put_word};
use test_lib_tools::report::Tally;

// The words that document 01 prints.
const WORDS: [u32; 12] = [2, 0, 3, 2, 1, 0, 0, 6, 0, 10, 0, 24];

// The words of its speed frame: kind 3, and 384 is 128 × 3.
const SPEED_WORDS: [u32; 13] = [3, 0, 3, 2, 1, 0, 0, 384, 6, 0, 10, 0, 409];

// DATA_BIAS and the last word as they were before request 2026-06: 98 × 3, and the sum with it.
const OLD_BIAS: u32 = 294;

const OLD_SUM: u32 = 319;

// The mark and those words.
fn example(kind: Kind) -> [u8; 54] {
    let mut s = [0; 54];
    put(&mut s, 0, 0x4c);
    put(&mut s, 1, 0x54);
    let words: &[u32] = match kind {
        Kind::Binned => &WORDS,
        Kind::Speed => &SPEED_WORDS,
    };
    for (k, &word) in words.iter().enumerate() {
        put_word(&mut s, k, word);
    }
    s
}

// Its fields: three ticks of which two are valid at the centre and one at the edge.
fn fields(kind: Kind) -> Fields {
    Fields {
        kind: kind as u32,
        cell: 0,
        block: 0,
        bin: 0,
        bank: 0,
        ticks: 3,
        centre: 2,
        edge: 1,
        second: 0,
        offset: 0,
    }
}

// Accepted; read as its fields; written again; and normalised by the centre count 2: 6 and 10 are 3.0 and 5.0; lag 2 is
// none of N = 2.
fn expect_example(t: &mut Tally, kind: Kind) {
    let s = example(kind);
    let bytes = head(&s, kind.length(2));
    expect_read(t, 2, bytes, kind.length(2), Ok(()));
    t.note(reads_as(2, bytes, fields(kind)));
    t.note(comes_back(2, bytes));
    t.note(is_normal(2, bytes, 0, 3.0, 0.0));
    t.note(is_normal(2, bytes, 1, 5.0, 0.0));
    t.note(normal(2, bytes, 2) == Err(Refusal::NoLag));
}

// "A speed frame written before with any ticks in it is then refused by 18."
fn expect_written_before(t: &mut Tally) {
    let mut s = example(Kind::Speed);
    put_word(&mut s, 7, OLD_BIAS);
    put_word(&mut s, 12, OLD_SUM);
    expect_read(t, 2, &s, Kind::Speed.length(2), Err(Refusal::WrongBias));
}

pub fn frames(kind: Kind) -> Tally {
    let mut t = Tally::default();
    expect_example(&mut t, kind);
    if kind == Kind::Speed {
        expect_written_before(&mut t);
    }
    t
}
