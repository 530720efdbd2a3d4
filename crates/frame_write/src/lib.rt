// The writer of frames from fields and lag numbers.
#![tactic(auto)]

ghost use Rattle.std.specs.Prelude.{◌≡◌, length};
ghost use Rattle.lta_spec.specs.Answer.{numbered_as};
ghost use Rattle.lta_spec.specs.FrameCalls.{write_verdict, write_answer, write_leaves};

use frame_codec::{lags_within, word_of};
use frame_header::{FrameKind, fields_ok, put_frame_of};
use lta_spec::{Fields, PEAK, Refusal};
use shape::lag_count_ok;

// What the writer says of its arguments: 1, 16, 10, or accepted.
#[tactic(auto, unfolding(lta_spec::specs::FrameCalls::write_verdict, lta_spec::specs::Frame::fields_ok))]
fn write_verdict(n: u64, f: Fields, lags: &[i32], room: usize) -> Result<(), Refusal>
    ensures { result ≡ write_verdict n f lags.now room }
{
    Refusal::BadShape.unless(lag_count_ok(n))?;
    Refusal::BadField.unless(fields_ok(f))?;
    Refusal::BadField.unless(lags.len() as u64 == 2 * n)?;
    Refusal::BadField.unless(lags_within(lags, PEAK * f.ticks))?;
    Refusal::ShortBuffer.unless(FrameKind::of(f).length(n) <= room as u64)
}

// The frame of the fields and the lag numbers, at the start of out.
pub fn write_frame(n: u64, f: Fields, lags: &[i32], out: &mut [u8]) -> Result<u64, Refusal>
    ensures answer { numbered_as result ≡ write_answer n f lags.now (length out.old) }
    ensures leaves { out.new ≡ write_leaves n f lags.now out.old }
{
    write_verdict(n, f, lags, out.len())?;
    put_frame_of(out, f, lags, word_of);
    Ok(FrameKind::of(f).length(n))
}
