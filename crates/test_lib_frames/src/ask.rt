// The calls that are tested, and the rows that hold them to what is due.
use crate::build::{Frame, ROOM, numbers};
use crate::due::kind_at;
use lta_spec::{Fields, Refusal};
use test_lib_tools::bytes::{fill_pattern, head, is_kept, twice, word};
use test_lib_tools::report::Tally;

// What the normalising call says: is there data at this lag?
pub fn normal(n: u64, bytes: &[u8], k: u64) -> Result<bool, Refusal> {
    frame::normalised_lag(n, bytes, k).map(|lag| lag.is_some())
}

// The part of a frame's bytes that holds the lag pairs.
fn pairs(n: u64, bytes: &[u8]) -> Option<&[u8]> {
    let at = kind_at(n, bytes.len())?.lags_at();
    bytes.get(at..at + 4 * twice(n))
}

// "returns .. the part of the caller's bytes that holds the lag pairs", "the empty part where the reader refuses".
fn is_part_right(n: u64, bytes: &[u8], due: Result<(), Refusal>) -> bool {
    let part = frame::lag_part(n, bytes);
    match due {
        Ok(()) => pairs(n, bytes) == Some(part),
        Err(_) => part.is_empty(),
    }
}

// Normalising refuses as reading does, then lag N by 12; where the centre count is 0 there is no data.
fn is_normal_right(n: u64, bytes: &[u8], due: Result<(), Refusal>) -> bool {
    let has_data = word(bytes, 3) != 0;
    let first = normal(n, bytes, 0) == due.map(|()| has_data);
    first && normal(n, bytes, n) == due.and(Err(Refusal::NoLag))
}

// A row: reader, lag part and normalising all answer so to the first `len` bytes.
pub fn expect_read(t: &mut Tally, n: u64, s: &[u8], len: usize, due: Result<(), Refusal>) {
    let bytes = head(s, len);
    let is_told = frame::read_frame(n, bytes).map(|_| ()) == due;
    let is_right = is_told && is_part_right(n, bytes, due) && is_normal_right(n, bytes, due);
    t.row(is_right && bytes.len() == len, due.is_err());
}

// Does the writer answer so to these fields and numbers and this much room? Where a frame is due, its bytes are now
// there, and all others are as they were.
fn is_written(n: u64, f: Fields, lags: &[i32], room: usize, due: Result<&[u8], Refusal>) -> bool {
    let mut out = [0u8; ROOM];
    fill_pattern(&mut out);
    let Some(lent) = out.get_mut(..room) else {
        return false;
    };
    let told = frame::write_frame(n, f, lags, lent);
    let frame = due.unwrap_or(&[]);
    told == due.map(|frame| frame.len() as u64)
        && out.starts_with(frame)
        && is_kept(&out, frame.len())
}

// A call of the writer: the fields of a frame, the first `count` of its lag numbers, and so many bytes of room.
#[derive(Clone, Copy)]
pub struct Writing {
    pub n: u64,
    pub frame: Frame,
    pub count: usize,
    pub room: usize,
}

impl Writing {
    // All the frame's numbers, and just the room that it needs.
    pub fn of(frame: Frame) -> Writing {
        Writing {
            n: frame.lags,
            frame,
            count: twice(frame.lags),
            room: frame.length(),
        }
    }
}

// A row: the writer answers so to the call, where the numbers, and the frame if one is due, are those of s.
pub fn expect_write(t: &mut Tally, call: Writing, s: &[u8], due: Result<(), Refusal>) {
    let lags = numbers(s, call.frame.kind.lags_at());
    let first = lags.get(..call.count).unwrap_or(&lags);
    let frame = due.map(|()| head(s, call.frame.length()));
    let is_right = is_written(call.n, call.frame.fields(), first, call.room, frame);
    t.row(is_right, due.is_err());
}

// Are these fields and the numbers of the lag part written as the bytes that they were read from? They go into a
// longer buffer.
fn is_rewritten(n: u64, f: Fields, bytes: &[u8]) -> bool {
    let lags = numbers(frame::lag_part(n, bytes), 0);
    let all = lags.get(..twice(n)).unwrap_or(&lags);
    is_written(n, f, all, ROOM, Ok(bytes))
}

// Is the frame accepted, and written again, byte for byte, from what the reader and the lag part give?
pub fn comes_back(n: u64, bytes: &[u8]) -> bool {
    frame::read_frame(n, bytes).is_ok_and(|f| is_rewritten(n, f, bytes))
}

// Does the reader accept the frame and return these fields?
pub fn reads_as(n: u64, bytes: &[u8], f: Fields) -> bool {
    frame::read_frame(n, bytes) == Ok(f)
}

// Is lag k of the frame re and im, each divided once?
pub fn is_normal(n: u64, bytes: &[u8], k: u64, re: f64, im: f64) -> bool {
    matches!(frame::normalised_lag(n, bytes, k), Ok(Some(z)) if z.re == re && z.im == im)
}
