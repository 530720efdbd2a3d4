// The frame sender's refusals 13 to 16 and 18: one damaged frame for each clause, and both sides of each limit.
use lta_spec::Refusal;
use test_lib_frames::ask::expect_read;
use test_lib_frames::build::{Frame, Near};
use test_lib_tools::bytes::{Kind, put, sum};
use test_lib_tools::refusal::unless;
use test_lib_tools::report::Tally;

// 13, "when the length is neither kind's": the right length; a byte, a word and many more; no byte, the mark alone, a
// byte less and a word less. The other kind's length, a word more or less, comes to its last word, and that is wrong.
pub fn lengths(base: Frame) -> Tally {
    let mut t = Tally::default();
    let s = base.bytes();
    for near in Near::ALL {
        let due = match (near, base.kind) {
            (Near::Right, _) => Ok(()),
            (Near::WordMore, Kind::Binned) | (Near::WordLess, Kind::Speed) => {
                Err(Refusal::WrongSum)
            }
            _ => Err(Refusal::WrongLength),
        };
        expect_read(&mut t, base.lags, &s, near.of(base.length()), due);
    }
    t
}

// 14, "wrong mark": each value in each mark byte. The mark is no part of the sum.
pub fn marks(base: Frame) -> Tally {
    let mut t = Tally::default();
    for (at, right) in [0x4c, 0x54].into_iter().enumerate() {
        let mut s = base.bytes();
        for v in 0..=u8::MAX {
            put(&mut s, at, v);
            let due = unless(v == right, Refusal::WrongMark);
            expect_read(&mut t, base.lags, &s, base.length(), due);
        }
    }
    t
}

// What is added to the last word: nothing, one, minus one, the top bit; the mark's bytes; and, taken away, the header,
// the lags, and word 7, which is DATA_BIAS in a speed frame.
fn addends(base: Frame) -> [u32; 8] {
    let s = base.bytes();
    let heads = base.kind.heads();
    [
        0,
        1,
        0xffff_ffff,
        0x8000_0000,
        0x544c,
        sum(&s, 0, heads).wrapping_neg(),
        sum(&s, heads, base.kind.last(base.lags)).wrapping_neg(),
        sum(&s, 7, 8).wrapping_neg(),
    ]
}

// 15, "wrong last word".
pub fn last_words(base: Frame) -> Tally {
    let mut t = Tally::default();
    let mut s = base.bytes();
    for add in addends(base) {
        base.seal(&mut s, add);
        let due = unless(add == 0, Refusal::WrongSum);
        expect_read(&mut t, base.lags, &s, base.length(), due);
    }
    t
}

// A row: the base frame with w as word k, and its last word made right again.
fn expect_word(t: &mut Tally, base: Frame, k: usize, w: u32, due: Result<(), Refusal>) {
    let s = base.bytes_with(k, w, 0);
    expect_read(t, base.lags, &s, base.length(), due);
}

// A kind's number in a table that tells what kind 2 may be and may not be: for kind 3 its lowest bit is turned.
pub fn turned(kind: Kind, number: u32) -> u32 {
    match kind {
        Kind::Binned => number,
        Kind::Speed => number ^ 1,
    }
}

// A value of word k in such a table: the kind stands in word 0.
fn for_kind(kind: Kind, k: usize, w: u32) -> u32 {
    if k == 0 { turned(kind, w) } else { w }
}

// What is due to another word k of the header that keeps to 16: 18 where DATA_BIAS then differs from 128 × ticks.
fn bias_due(kind: Kind, k: usize) -> Result<(), Refusal> {
    unless(kind == Kind::Binned || k != 2 && k != 7, Refusal::WrongBias)
}

// Header words that keep to 16: the word's number, and its value.
const KEPT: [(usize, u32); 16] = [
    // kind 2, and the least and the greatest cell
    (0, 0x0000_2802),
    (0, 0x0000_0002),
    (0, 0x0000_7802),
    // no block, bin and bank; the greatest block; data bin 999
    (1, 0x0000_0000),
    (1, 0x812c_ff00),
    (1, 0x83e7_4d00),
    // ticks: 16,777,215, and as many as the centre count; either count: 0, and as many as the ticks
    (2, 0x00ff_ffff),
    (2, 0x0000_0384),
    (3, 0x0000_0000),
    (3, 0x0000_03e8),
    (4, 0x0000_0000),
    (4, 0x0000_03e8),
    // W5 may be anything; W6: 255,999,999
    (5, 0x0000_0000),
    (5, 0xffff_ffff),
    (6, 0x0000_0000),
    (6, 0x0f42_3fff),
];

// Header words that do not.
const WRONG: [(usize, u32); 21] = [
    // "bits 0-2 = 2"
    (0, 0x0000_2800),
    (0, 0x0000_2801),
    (0, 0x0000_2803),
    (0, 0x0000_2804),
    (0, 0x0000_2805),
    (0, 0x0000_2806),
    (0, 0x0000_2807),
    // "data bin above 999": 1,000, and 32,767 with either bank
    (1, 0x83e8_4d00),
    (1, 0xffff_4d00),
    (1, 0x7fff_4d00),
    // "ticks above 16,777,215"; ticks below a count
    (2, 0x0100_0000),
    (2, 0xffff_ffff),
    (2, 0x0000_0383),
    (2, 0x0000_0000),
    // "a count above ticks"
    (3, 0x0000_03e9),
    (3, 0xffff_ffff),
    (4, 0x0000_03e9),
    (4, 0xffff_ffff),
    // "W6 above 255,999,999": 256,000,000, and more
    (6, 0x0f42_4000),
    (6, 0x0fff_ffff),
    (6, 0xffff_ffff),
];

// DATA_BIAS, where 128,000 is right: none, 1 × ticks, 127 and 129 × ticks, one less and one more, the memo's 112 ×
// ticks, 98 × ticks as in "A speed frame written before", minus 128 × ticks, and all bits.
const BIASES: [u32; 10] = [
    0x0000_0000,
    0x0000_03e8,
    0x0001_f018,
    0x0001_f7e8,
    0x0001_f3ff,
    0x0001_f401,
    0x0001_b580,
    0x0001_7ed0,
    0xfffe_0c00,
    0xffff_ffff,
];

// Each word of the tables, and in speed frames alone each DATA_BIAS.
pub fn words(base: Frame) -> Tally {
    let mut t = Tally::default();
    let kind = base.kind;
    for (k, w) in KEPT {
        expect_word(&mut t, base, k, for_kind(kind, k, w), bias_due(kind, k));
    }
    for (k, w) in WRONG {
        let due = Err(Refusal::BadField);
        expect_word(&mut t, base, k, for_kind(kind, k, w), due);
    }
    if kind == Kind::Speed {
        for w in BIASES {
            expect_word(&mut t, base, 7, w, Err(Refusal::WrongBias));
        }
    }
    t
}

// The header words of the base frame, and DATA_BIAS; with each its bits that may be turned, one at a time. No fixed bit
// is here: W0 has its cell alone, W1 not its bits 0-7, W6 not its bits 29-31. Data bin: 300 stays below 1,000 by its
// ten low bits. Ticks: 1,000 stays from 900 to 16,777,215. Counts: 900 and 800 stay below 1,000 by their ten low bits.
// W6: with bit 28 it passes its limit. DATA_BIAS has no fixed bit.
const HEADER: [(u32, u32); 8] = [
    (0x2802, 0x7800),
    (0x812c4d00, 0x83ffff00),
    (1000, 0xfffc7f),
    (900, 0x3ff),
    (800, 0x3ff),
    (123456, 0xffffffff),
    (789, 0xfffffff),
    (128000, 0xffffffff),
];

// "a fixed bit wrong", and every other bit of the header, turned.
pub fn bits(base: Frame) -> Tally {
    let mut t = Tally::default();
    let kind = base.kind;
    for (k, (word, free)) in HEADER.into_iter().enumerate().take(kind.heads()) {
        for bit in 0..u32::BITS {
            let mask = 1 << bit;
            let due = if free & mask != 0 {
                bias_due(kind, k)
            } else {
                Err(Refusal::BadField)
            };
            expect_word(&mut t, base, k, for_kind(kind, k, word ^ mask), due);
        }
    }
    t
}
