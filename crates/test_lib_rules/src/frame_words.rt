// Header words of a frame that do not come from its set, and what a call says that writes a frame.
use crate::call::{Answer, Bin};
use lta_spec::{Refusal, Shape};
use test_lib_tools::bytes::Kind;
use test_lib_tools::refusal::unless;

// What tells a frame apart from its set: its kind, its place in the run, and the stamp.
#[derive(Clone, Copy, Debug, PartialEq, Eq)]
pub struct Header {
    pub kind: Kind,
    pub cell: u64,
    pub bin: Bin,
    pub stamp: u64,
}

// W1: "bits 8-15 Y block, S + (data bin mod M); bits 16-30 data bin; bit 31 bank".
fn place_word(s: Shape, Bin { bank, bin }: Bin) -> u64 {
    let offset = bin.checked_rem(s.blocks).unwrap_or(0);
    let block = s.start.wrapping_add(offset) % 256;
    (block << 8) | (bin % 32768) << 16 | (bank % 2) << 31
}

impl Header {
    // W0, "bits 0-2", the kind, "bits 11-14 cell"; W1; W5, "Z + stamp div R"; W6, "bits 0-28 stamp mod R".
    pub fn word(self, s: Shape, j: usize) -> u64 {
        match j {
            0 => self.kind.number() | (self.cell % 16) << 11,
            1 => place_word(s, self.bin),
            5 => self
                .stamp
                .checked_div(s.rate)
                .unwrap_or(0)
                .wrapping_add(s.second),
            _ => self.stamp.checked_rem(s.rate).unwrap_or(0),
        }
    }
}

// "10: buffer shorter than a frame", which comes last; or the answer, the frame's length.
pub fn says(n: u64, kind: Kind, bytes: u64) -> Answer {
    let right = kind.length(n) as u64;
    unless(bytes >= right, Refusal::ShortBuffer)?;
    Ok(right)
}
