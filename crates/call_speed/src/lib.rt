// A speed dump that is not refused: the frame of Open into the buffer lent, and Open empty.
#![tactic(auto)]

ghost use Rattle.std.specs.Prelude.{◌≡◌};
ghost use Rattle.lta_spec.specs.Words.{splice};
ghost use Rattle.lta_spec.specs.Frame.{speed_frame};
ghost use Rattle.lta_spec.specs.Call.{speed};
ghost use Rattle.lta_spec.specs.Call.Call.{dump};
ghost use Rattle.lta_spec.specs.Memory.{unit_layout, run_layout};
ghost use Rattle.lta_spec.specs.Step.{row_frame, accepted};
ghost use Rattle.cell_layout.specs.Lays.{Lays};
ghost use Rattle.cell_layout.specs.Cells.{unit_of};
ghost use Rattle.cell_layout.specs.Views.{IsCell};
ghost use Rattle.call_run.specs.Runs.{run_of};
ghost use Rattle.call_speed.specs.Sending.{bin_by, sent_by, Sends, SendsFrom};

use call_run::Run;
use cell_block::count_block;
use cell_dump::send_open;
use cell_layout::{CellShape, OPEN_ROW, OPEN_STAMP, SPEED};
use frame_emission::put_frame;
use frame_header::FrameKind;
use lta_spec::Shape;

// Of one cell: the block moves first, and the frame names it.
fn speed_cell(
    s: Shape,
    c: u64,
    cell: &mut [u64],
    shape: CellShape,
    t: u64,
    bank: u64,
    phase: u64,
    out: &mut [u8],
)
    requires alike { (shape.lags ≡ s.lags) × (shape.bins ≡ s.bins) }
    requires sends { IsCell shape cell.old
        × Sends s c bank phase t (unit_of s.lags s.bins cell.old) out.old }
    ensures frame { out.new
        ≡ splice out.old 0
        (row_frame s speed_frame c bank (bin_by s phase (unit_of s.lags s.bins cell.old))
        (unit_of s.lags s.bins cell.old).cell.opened) }
    ensures leaves { Lays (unit_layout s.lags s.bins) cell.new
        (sent_by s t (unit_of s.lags s.bins cell.old)) }
{
    let offset = count_block(cell, shape, s.blocks, SPEED);
    let bin = phase * s.blocks + offset;
    let stamp = cell[OPEN_STAMP];
    let e = shape.held_row();
    put_frame(
        s,
        FrameKind::Speed,
        c,
        bank,
        bin,
        stamp,
        &cell[OPEN_ROW..e],
        out,
    );
    send_open(cell, shape, t);
}

// Of a run.
pub fn speed_dump(s: Shape, mem: &mut [u64], cell: u64, bank: u64, phase: u64, out: &mut [u8])
    requires { SendsFrom s mem.old cell bank phase out.old }
    ensures frame { out.new
        ≡ (accepted s (dump cell speed bank phase out.old) (run_of s mem.old)).out }
    ensures leaves { mem.new
        ≡ (run_layout s).put
        (accepted s (dump cell speed bank phase out.old) (run_of s mem.old)).run }
{
    let run = Run { shape: s, mem };
    let shape = run.cell_shape();
    let t = run.time();
    let at = run.cell_start(cell);
    let e = at + run.cell_words();
    speed_cell(s, cell, &mut mem[at..e], shape, t, bank, phase, out);
}
