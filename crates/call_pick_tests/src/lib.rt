// The tests of a pick, and the cell that it takes.
#![tactic(auto)]

ghost use Rattle.std.specs.Prelude.{◌≡◌, ◌&&◌, ◌<◌, ltb};
ghost use Rattle.lta_spec.specs.Call.Call.{pick};
ghost use Rattle.lta_spec.specs.Damage.{picks_sound};
ghost use Rattle.lta_spec.specs.Step.{unit_at, picked_cell, verdict};
ghost use Rattle.call_run.specs.Runs.{run_of};

use call_run::Run;
use cell_layout::{READY_BINS, RUN_LIMIT, place_after};
use cell_picks::pick_sound;
use frame_header::FrameKind;
use lta_spec::{Refusal, Shape};

// Does a pick find every cell as the engine leaves it?
fn cells_sound(run: Run, t: u64) -> bool
    ensures { result
        ≡ picks_sound run.entry.shape.bins t (run_of run.entry.shape run.entry.mem.now).units }
{
    let mut ok = true;
    for c in 0..run.shape.cells {
        ok &= pick_sound(run.cell_at(c), t);
    }
    ok
}

// Does a pick find the run's place, and every cell, as the engine leaves them? The place first: it is one word.
fn parts_sound(run: Run, t: u64) -> bool
    ensures { result
        ≡ picks_sound run.entry.shape.bins t (run_of run.entry.shape run.entry.mem.now).units
        && ltb (run_of run.entry.shape run.entry.mem.now).next run.entry.shape.cells }
{
    run.next() < run.shape.cells && cells_sound(run, t)
}

// The Ready number of cell c.
fn ready_number(run: Run, c: u64) -> u64
    requires { c < run.shape.cells }
    ensures { result
        ≡ (unit_at run.entry.shape c (run_of run.entry.shape run.entry.mem.now)).picks.ready_bins }
{
    run.cell_at(c).words[READY_BINS]
}

// The cell at which a search from the run's place of picks ends. It reads Ready numbers alone.
pub fn picked_cell(run: Run) -> u64
    requires { (run_of run.shape run.mem.now).next < run.shape.cells }
    ensures { result ≡ picked_cell run.entry.shape (run_of run.entry.shape run.entry.mem.now) }
{
    let cells = run.shape.cells;
    let mut c = run.next();
    for _ in 0..cells {
        if ready_number(run, c) > 0 {
            return c;
        }
        c = place_after(cells, c);
    }
    c
}

// 1, 2, 11, 20, 10.
pub fn pick_verdict(s: Shape, mem: &[u64], out: &[u8]) -> Result<(), Refusal>
    ensures { result ≡ verdict s mem.now (pick out.now) }
{
    let run = Run::of(s, mem)?;
    let t = run.time();
    let parts = parts_sound(run, t);
    Refusal::Damaged.unless((t <= RUN_LIMIT) & parts)?;
    Refusal::NothingReady.unless(ready_number(run, picked_cell(run)) > 0)?;
    Refusal::ShortBuffer.unless(FrameKind::Accumulated.length(run.shape.lags) <= out.len() as u64)
}
