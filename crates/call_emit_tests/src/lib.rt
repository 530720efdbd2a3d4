// The tests of an emission.
#![tactic(auto)]

ghost use Rattle.std.specs.Prelude.{◌≡◌};
ghost use Rattle.lta_spec.specs.Call.Call.{emit};
ghost use Rattle.lta_spec.specs.Step.{verdict};

use call_run::Run;
use cell_bins::{bin_number, bin_ok};
use cell_layout::{READY, RUN_LIMIT};
use cell_ready::number_fits;
use frame_header::FrameKind;
use lta_spec::{Refusal, Shape};

// 1, 2, 5, 7, 11, 9, 10.
pub fn emit_verdict(
    s: Shape,
    mem: &[u64],
    c: u64,
    bank: u64,
    bin: u64,
    out: &[u8],
) -> Result<(), Refusal>
    ensures { result ≡ verdict s mem.now (emit c bank bin out.now) }
{
    let run = Run::of(s, mem)?;
    let part = run.cell(c)?;
    Refusal::NoBin.unless((bank < 2) & (bin < run.shape.bins))?;
    let k = bin_number(part.shape, bank, bin);
    let t = run.time();
    Refusal::Damaged.unless((t <= RUN_LIMIT) & (bin_ok(part, t, k) & number_fits(part, k)))?;
    Refusal::NotReady.unless(part.words[part.shape.bin_start(k)] == READY)?;
    Refusal::ShortBuffer.unless(FrameKind::Accumulated.length(run.shape.lags) <= out.len() as u64)
}
