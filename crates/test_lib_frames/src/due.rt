// What the papers say of any bytes, written from their text alone: the model that the reader is compared with.
use lta_spec::Refusal;
use test_lib_tools::bytes::{Kind, PEAK, is_marked, word};
use test_lib_tools::refusal::unless;

// The kind whose length this is, if it is one's.
pub fn kind_at(n: u64, len: usize) -> Option<Kind> {
    [Kind::Binned, Kind::Speed]
        .into_iter()
        .find(|kind| kind.length(n) == len)
}

// "W0: bits 0-2 = 2", or 3; "bits 11-14 cell; rest 0", and so for W1 and W6; the limits on data bin, ticks and counts.
fn is_header_right(s: &[u8], kind: Kind) -> bool {
    let ticks = word(s, 2);
    let fixed = word(s, 0) & 0xffff_87ff == kind as u32 && word(s, 1) & 0x0000_00ff == 0;
    let bin = (word(s, 1) >> 16) & 0x7fff <= 999;
    let counts = word(s, 3) <= ticks && word(s, 4) <= ticks;
    fixed && bin && ticks <= 16777215 && counts && word(s, 6) <= 255999999
}

// "98 × ticks", with 128 for 98.
fn most(s: &[u8]) -> u64 {
    PEAK * u64::from(word(s, 2))
}

// "a lag beyond 98 × ticks", so read: the size of a two's complement word's number.
fn are_lags_right(s: &[u8], n: u64, kind: Kind) -> bool {
    (kind.heads()..kind.last(n)).all(|k| {
        let size = word(s, k).cast_signed().unsigned_abs();
        u64::from(size) <= most(s)
    })
}

// "18 when a speed frame's DATA_BIAS differs from 98 × ticks", so read.
fn is_bias_right(s: &[u8], kind: Kind) -> bool {
    kind == Kind::Binned || u64::from(word(s, 7)) == most(s)
}

// What the frame sender is told.
pub fn due(n: u64, s: &[u8]) -> Result<(), Refusal> {
    unless((2..=128).contains(&n) && n % 2 == 0, Refusal::BadShape)?;
    let kind = kind_at(n, s.len()).ok_or(Refusal::WrongLength)?;
    unless(is_marked(s), Refusal::WrongMark)?;
    unless(kind.is_summed(s, n), Refusal::WrongSum)?;
    unless(
        is_header_right(s, kind) && are_lags_right(s, n, kind),
        Refusal::BadField,
    )?;
    unless(is_bias_right(s, kind), Refusal::WrongBias)
}
