// Refusal 1, and the orders 1, 13, 14, 15, 16, 18, 12 of reading and normalising and 1, 16, 10 of writing.
use lta_spec::Refusal;
use test_lib_frames::ask::{Writing, expect_read, expect_write};
use test_lib_frames::build::{Content, Field, Frame, Near};
use test_lib_tools::bytes::{Kind, put};
use test_lib_tools::refusal::unless;
use test_lib_tools::report::Tally;

// N out of "even, 2 to 128"; if a cast or a sum wrapped, the last four would give the length of a frame of N = 2.
const BAD: [u64; 13] = [
    0,
    1,
    3,
    127,
    129,
    130,
    258,
    4294967296,
    18446744073709551615,
    4294967298,
    2305843009213693954,
    4611686018427387906,
    9223372036854775810,
];

// The base frame with a kind of 7.
fn of_no_kind(base: Frame) -> Frame {
    base.with(Content::Changed(Field::Kind, 7))
}

// The reader's refusal 1: a frame of that many lags, where it fits; a good frame of N = 2; one that is wrong in all.
fn bad_read(t: &mut Tally, good: Frame, n: u64) {
    let due = Err(Refusal::BadShape);
    let of_n = Frame { lags: n, ..good };
    expect_read(t, n, &of_n.bytes(), of_n.length(), due);
    expect_read(t, n, &good.bytes(), good.length(), due);
    let mut s = good.bytes_with(0, 0x2807, 1);
    put(&mut s, 0, 0x4d);
    expect_read(t, n, &s, Near::ByteMore.of(good.length()), due);
}

// The writer's refusal 1: with all else right for N = 2, and with all else wrong.
fn bad_write(t: &mut Tally, good: Frame, n: u64) {
    let s = good.bytes();
    let due = Err(Refusal::BadShape);
    let call = Writing {
        n,
        ..Writing::of(good)
    };
    expect_write(t, call, &s, due);
    let wrong = Writing {
        n,
        frame: of_no_kind(good),
        count: 3,
        room: 0,
    };
    expect_write(t, wrong, &s, due);
}

// "1 for N", beside a good frame of N = 2.
pub fn bad_shapes(good: Frame) -> Tally {
    let mut t = Tally::default();
    for n in BAD {
        bad_read(&mut t, good, n);
        bad_write(&mut t, good, n);
    }
    t
}

// The number's bits, the lowest first.
fn flags(i: u8) -> [bool; 6] {
    [1, 2, 4, 8, 16, 32].map(|bit| i & bit != 0)
}

// The first that applies.
fn first_of<const K: usize>(tests: [(bool, Refusal); K]) -> Result<(), Refusal> {
    for (applies, refusal) in tests {
        unless(!applies, refusal)?;
    }
    Ok(())
}

// A row: a frame of N = 2 is read, where some of these are wrong: its N, its length, the mark, the last word, a field,
// and in speed frames alone DATA_BIAS. The row also normalises lag N, whose 12 comes last. Word 7 of the base frame is
// DATA_BIAS, or I of lag 0; the wrong one is the DATA_BIAS of "A speed frame written before".
fn expect_damaged(t: &mut Tally, good: Frame, defects: [bool; 6]) {
    let [lags, length, mark, sum, field, bias] = defects;
    let due = first_of([
        (lags, Refusal::BadShape),
        (length, Refusal::WrongLength),
        (mark, Refusal::WrongMark),
        (sum, Refusal::WrongSum),
        (field, Refusal::BadField),
        (bias, Refusal::WrongBias),
    ]);
    let word = match (good.kind, bias) {
        (_, true) => 98000,
        (Kind::Speed, false) => 128000,
        (Kind::Binned, false) => 1,
    };
    let frame = if field { of_no_kind(good) } else { good };
    let mut s = frame.bytes_with(7, word, u32::from(sum));
    if mark {
        put(&mut s, 0, 0x4d);
    }
    let near = if length { Near::ByteLess } else { Near::Right };
    let n = if lags { 3 } else { 2 };
    expect_read(t, n, &s, near.of(good.length()), due);
}

// Reading with every set of defects: the first that applies is returned.
pub fn reading(good: Frame) -> Tally {
    let mut t = Tally::default();
    let sets = match good.kind {
        Kind::Binned => 32,
        Kind::Speed => 64,
    };
    for i in 0..sets {
        expect_damaged(&mut t, good, flags(i));
    }
    t
}

// A row: a frame of N = 2 is written, where some of these are wrong: N; a field, a lag and their count; the buffer.
fn expect_misused(t: &mut Tally, good: Frame, defects: [bool; 6]) {
    let [lags, field, lag, count, room, _] = defects;
    let due = first_of([
        (lags, Refusal::BadShape),
        (field, Refusal::BadField),
        (lag, Refusal::BadField),
        (count, Refusal::BadField),
        (room, Refusal::ShortBuffer),
    ]);
    let q = if lag { 128001 } else { 53 };
    let s = good.bytes_with(good.kind.heads() + 1, q, 0);
    let near = if room { Near::ByteLess } else { Near::Right };
    let call = Writing {
        n: if lags { 3 } else { 2 },
        frame: if field { of_no_kind(good) } else { good },
        count: if count { 3 } else { 4 },
        room: near.of(good.length()),
    };
    expect_write(t, call, &s, due);
}

// Writing with every set of defects: the first that applies is returned.
pub fn writing(good: Frame) -> Tally {
    let mut t = Tally::default();
    for i in 0..32 {
        expect_misused(&mut t, good, flags(i));
    }
    t
}
