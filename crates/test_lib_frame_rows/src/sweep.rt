// Pseudo-random frames, read and written again; and damaged, and held to the model.
use test_lib_frames::ask::{comes_back, expect_read, is_normal, reads_as};
use test_lib_frames::build::{Content, Frame, bias, lag};
use test_lib_frames::due::due;
use test_lib_tools::bytes::{Kind, head, put_word, word};
use test_lib_tools::random::{below, upto};
use test_lib_tools::report::Tally;
use test_lib_tools::words::low_word;

// Is lag k of the frame its numbers divided by the centre count? (Where that is 0, expect_read tests "no data".)
fn is_lag_right(frame: Frame, bytes: &[u8], k: u64) -> bool {
    let at = frame.kind.lags_at();
    let j = (k as usize).saturating_mul(2);
    let centre = word(bytes, 3);
    let i = f64::from(lag(bytes, at, j));
    let q = f64::from(lag(bytes, at, j.saturating_add(1)));
    let count = f64::from(centre);
    centre == 0 || is_normal(frame.lags, bytes, k, i / count, q / count)
}

// Rows: a frame is accepted, with its lag part; read as its fields; lag k normalised; written again from what the
// reader and the lag part gave.
pub fn expect_whole(t: &mut Tally, frame: Frame, k: u64) {
    let s = frame.bytes();
    let bytes = head(&s, frame.length());
    expect_read(t, frame.lags, bytes, frame.length(), Ok(()));
    t.note(reads_as(frame.lags, bytes, frame.fields()));
    t.note(is_lag_right(frame, bytes, k));
    t.note(comes_back(frame.lags, bytes));
}

// The seed of pseudo-random frame i of a kind.
fn seed_of(kind: Kind, i: u32) -> u64 {
    let of_kind = match kind {
        Kind::Binned => 0x0c_0000_0000,
        Kind::Speed => 0x1c_0000_0000,
    };
    of_kind + u64::from(i)
}

// 3,000 pseudo-random frames.
pub fn random(base: Frame) -> Tally {
    let mut t = Tally::default();
    for i in 0..3000 {
        let seed = seed_of(base.kind, i);
        let frame = base.with(Content::Random(seed));
        expect_whole(&mut t, frame, below(seed, 90, base.lags));
    }
    t
}

// 128 × 16,777,215 in I and -128 × 16,777,215 in Q of every lag: the first and the last lag normalised.
pub fn greatest(base: Frame) -> Tally {
    let mut t = Tally::default();
    let frame = base.with(Content::Full(16777215));
    expect_whole(&mut t, frame, 0);
    expect_whole(&mut t, frame, base.lags.saturating_sub(1));
    t
}

// Values at or next to a limit of document 01, and kind 3.
const ODD: [u32; 10] = [
    2, 3, 0x7802, 0x83e7ff00, 0x83e8ff00, 16777215, 16777216, 255999999, 256000000, 0x80000000,
];

// Another value for a word w: another low byte; at or next to what a frame of these ticks allows; any; one of these.
fn other(seed: u64, w: u32, ticks: u32) -> u32 {
    let most = bias(ticks);
    let past = most.wrapping_add(1);
    match below(seed, 91, 16) {
        0 => ticks,
        1 => ticks.wrapping_add(1),
        2 => most,
        3 => past,
        4 => most.wrapping_neg(),
        5 => past.wrapping_neg(),
        6 => upto(seed, 92, u32::MAX),
        7..=10 => w ^ low_word(below(seed, 94, 255).wrapping_add(1)),
        _ => ODD[below(seed, 93, 10) as usize],
    }
}

// Another value in one word, every second time of the header; in two of three cases the last word is right again.
fn damage(frame: Frame, s: &mut [u8], seed: u64) {
    let end = if below(seed, 95, 2) == 0 {
        frame.kind.heads()
    } else {
        frame.kind.last(frame.lags)
    };
    let k = below(seed, 96, end as u64) as usize;
    let w = other(seed, word(s, k), word(s, 2));
    put_word(s, k, w);
    let add = if seed % 3 == 0 {
        below(seed, 99, 1 << 32)
    } else {
        0
    };
    frame.seal(s, low_word(add));
}

// Rows: of the first `len` bytes the calls say what the model says; where they are a frame, it is written again from
// what the reader and the lag part gave.
fn expect_due(t: &mut Tally, n: u64, s: &[u8], len: usize) {
    let bytes = head(s, len);
    let due = due(n, bytes);
    expect_read(t, n, bytes, len, due);
    if due.is_ok() {
        t.note(comes_back(n, bytes));
    }
}

// 6,000 pseudo-random frames, damaged; read as what they are, with another N, and in another length.
pub fn damaged(base: Frame) -> Tally {
    let mut t = Tally::default();
    for i in 0..6000 {
        let seed = seed_of(base.kind, i);
        let frame = base.with(Content::Random(seed));
        let mut s = frame.bytes();
        damage(frame, &mut s, seed);
        expect_due(&mut t, frame.lags, &s, frame.length());
        let other = below(seed, 97, 140);
        expect_due(&mut t, other, &s, frame.kind.length(other));
        expect_due(&mut t, frame.lags, &s, below(seed, 98, 1100) as usize);
    }
    t
}
