// The emission of one bin: its frame into the buffer lent, the bin Free, and one Ready bin less.
#![tactic(auto)]

ghost use Rattle.std.specs.Prelude.{◌≡◌, ◌≤◌};
ghost use Rattle.lta_spec.specs.Words.{splice};
ghost use Rattle.lta_spec.specs.Answer.{numbered_as};
ghost use Rattle.lta_spec.specs.Memory.{run_layout};
ghost use Rattle.lta_spec.specs.Call.Call.{emit};
ghost use Rattle.lta_spec.specs.Step.{unit_at, step};
ghost use Rattle.cell_layout.specs.Lays.{Lays};
ghost use Rattle.call_run.specs.Runs.{Celled, run_of};
ghost use Rattle.call_emit_tests.specs.Bins.{Named};
ghost use Rattle.call_emit.specs.Emission.{EmitsFrom, frame_at, emitted};

use call_emit_tests::emit_verdict;
use call_run::Run;
use cell_bins::bin_number;
use cell_layout::{ROW, STAMP};
use cell_ready::take_bin;
use frame_emission::put_frame;
use frame_header::FrameKind;
use lta_spec::{Refusal, Shape};

// The frame of a bin, into the front of the buffer.
fn frame_from(run: Run, cell: u64, bank: u64, bin: u64, out: &mut [u8])
    requires { EmitsFrom run.shape run.mem.now cell bank bin out.old }
    ensures { out.new
        ≡ splice out.old 0
        (frame_at run.entry.shape cell bank bin (run_of run.entry.shape run.entry.mem.now)) }
{
    let part = run.cell_at(cell);
    let at = part.shape.bin_start(bin_number(part.shape, bank, bin));
    let stamp = part.words[at + STAMP];
    let row = at + ROW;
    let e = row + part.shape.row_words();
    put_frame(
        run.shape,
        FrameKind::Accumulated,
        cell,
        bank,
        bin,
        stamp,
        &part.words[row..e],
        out,
    );
}

// The bin is Free and empty, its stamp stays, and there is one Ready bin less.
fn free_bin(s: Shape, mem: &mut [u64], cell: u64, bank: u64, bin: u64)
    requires { (Celled s mem.old cell × Named s bank bin)
        × (1 ≤ (unit_at s cell (run_of s mem.old)).picks.ready_bins) }
    ensures { Lays (run_layout s) mem.new (emitted s cell bank bin (run_of s mem.old)) }
{
    let run = Run { shape: s, mem };
    let shape = run.cell_shape();
    let k = bin_number(shape, bank, bin);
    let at = run.cell_start(cell);
    let e = at + run.cell_words();
    take_bin(&mut mem[at..e], shape, k);
}

// The emission of a bin whose tests passed, which was named or picked.
pub fn emit_bin(s: Shape, mem: &mut [u64], cell: u64, bank: u64, bin: u64, out: &mut [u8])
    requires { EmitsFrom s mem.old cell bank bin out.old }
    ensures frame { out.new
        ≡ splice out.old 0 (frame_at s cell bank bin (run_of s mem.old)) }
    ensures leaves { Lays (run_layout s) mem.new
        (emitted s cell bank bin (run_of s mem.old)) }
{
    let run = Run { shape: s, mem };
    frame_from(run, cell, bank, bin, out);
    free_bin(s, mem, cell, bank, bin);
}

// An emission: the frame of a Ready bin into the buffer lent.
pub fn emit(
    s: Shape,
    mem: &mut [u64],
    cell: u64,
    bank: u64,
    bin: u64,
    out: &mut [u8],
) -> Result<u64, Refusal>
    ensures answer { numbered_as result
        ≡ (step s (emit cell bank bin out.old) mem.old).answer }
    ensures frame { out.new
        ≡ (step s (emit cell bank bin out.old) mem.old).out }
    ensures leaves { mem.new
        ≡ (step s (emit cell bank bin out.old) mem.old).mem }
{
    emit_verdict(s, mem, cell, bank, bin, out)?;
    emit_bin(s, mem, cell, bank, bin, out);
    Ok(FrameKind::Accumulated.length(s.lags))
}
