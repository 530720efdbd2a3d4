// The frame of a row, a bin's or Open's, written from the words that the engine keeps of it: ticks, edge and centre
// count, then the biased sums.
#![tactic(auto)]

ghost use Rattle.std.specs.Prelude.{◌≡◌, ◌≤◌, length, pos, ◌-ℤ◌};
ghost use Rattle.lta_spec.specs.Words.{splice};
ghost use Rattle.lta_spec.specs.Bytes.{number_word};
ghost use Rattle.lta_spec.specs.Frame.{frame_length};
ghost use Rattle.lta_spec.specs.Engine.{stamped};
ghost use Rattle.lta_spec.specs.Step.{row_frame};
ghost use Rattle.frame_header.specs.Kind.{kind_number};
ghost use Rattle.frame_fields.specs.Emits.{Emits};

use cell_layout::SUMS;
use frame_fields::emitted_fields;
use frame_header::{FrameKind, put_frame_of};
use lta_spec::{PEAK, Shape};

// The two's complement word of a stored sum without its bias.
fn word_from(stored: u64, bias: u32) -> u32
    ensures { result ≡ number_word (pos stored -ℤ pos bias) }
{
    ((stored % 4294967296) as u32).wrapping_sub(bias)
}

// The frame of a row, at the start of out.
pub fn put_frame(
    s: Shape,
    kind: FrameKind,
    cell: u64,
    bank: u64,
    bin: u64,
    stamp: u64,
    row: &[u64],
    out: &mut [u8],
)
    requires { Emits s (kind_number kind) cell bank bin stamp row.now
        × (frame_length (kind_number kind) s.lags ≤ length out.old) }
    ensures { out.new
        ≡ splice out.old 0
        (row_frame s (kind_number kind) cell bank bin (stamped row.now stamp)) }
{
    let f = emitted_fields(s, kind, cell, bank, bin, stamp, row);
    let bias = PEAK * f.ticks;
    put_frame_of(out, f, &row[SUMS..], |stored| word_from(stored, bias));
}
