// The fields of the frame of a row, from the shape, its kind, the names of its bin, its stamp and its words.
#![tactic(auto)]

ghost use Rattle.std.specs.Prelude.{◌≡◌, true, ◌+◌, ◌/◌, ◌%◌, ◌<◌, ◌≤◌};
ghost use Rattle.lta_spec.specs.Bytes.{word_range};
ghost use Rattle.lta_spec.specs.Frame.{fields_ok};
ghost use Rattle.frame_header.specs.Kind.{kind_number};
ghost use Rattle.frame_fields.specs.Emits.{Emits, fields_from};

use cell_layout::{CENTRE, EDGE, TICKS};
use frame_header::FrameKind;
use lta_spec::{Fields, Shape};

// The Y block of a data bin: S + (data bin mod M).
fn block_of(start: u64, blocks: u64, bin: u64) -> u32
    requires { (1 ≤ blocks) × (start + bin % blocks ≤ 255) }
    ensures { result ≡ start + bin % blocks }
{
    (start + bin % blocks) as u32
}

// The second of a stamp: Z + stamp div R.
fn second_of(zero: u64, rate: u64, stamp: u64) -> u32
    requires { (1 ≤ rate) × (zero + stamp / rate < word_range) }
    ensures { result ≡ zero + stamp / rate }
{
    (zero + stamp / rate) as u32
}

// The ticks of a stamp within its second: stamp mod R.
fn offset_of(rate: u64, stamp: u64) -> u32
    requires { (1 ≤ rate) × (stamp % rate ≤ 255999999) }
    ensures { result ≡ stamp % rate }
{
    (stamp % rate) as u32
}

// The fields of the frame of a row, a bin's or Open's.
pub fn emitted_fields(
    s: Shape,
    kind: FrameKind,
    cell: u64,
    bank: u64,
    bin: u64,
    stamp: u64,
    row: &[u64],
) -> Fields
    requires { Emits s (kind_number kind) cell bank bin stamp row.now }
    ensures { (result ≡ fields_from s (kind_number kind) cell bank bin stamp row.now) × (fields_ok result ≡ true) }
{
    let ticks = row[TICKS] as u32;
    let edge = row[EDGE] as u32;
    let centre = row[CENTRE] as u32;
    let block = block_of(s.start, s.blocks, bin);
    let second = second_of(s.second, s.rate, stamp);
    let offset = offset_of(s.rate, stamp);
    Fields {
        kind: kind.into(),
        cell: cell as u32,
        block,
        bin: bin as u32,
        bank: bank as u32,
        ticks,
        centre,
        edge,
        second,
        offset,
    }
}
