// A pick: the emission of the bin whose turn it is, and the places of picks behind it.
#![tactic(auto)]

ghost use Rattle.std.specs.Prelude.{◌≡◌, ◌*◌, ◌<◌};
ghost use Rattle.lta_spec.specs.Answer.{numbered_as};
ghost use Rattle.lta_spec.specs.Call.Call.{pick};
ghost use Rattle.lta_spec.specs.Engine.{bank_of, data_bin_of, picked_bin};
ghost use Rattle.lta_spec.specs.Memory.{run_layout};
ghost use Rattle.lta_spec.specs.Step.{unit_at, pointed, picks_bin, step};
ghost use Rattle.cell_layout.specs.Lays.{Lays};
ghost use Rattle.call_run.specs.Runs.{Celled, run_of};
ghost use Rattle.call_pick.specs.Picking.{PicksFrom};

use call_emit::emit_bin;
use call_pick_tests::{pick_verdict, picked_cell};
use call_run::Run;
use cell_layout::{NEXT_BIN, place_after};
use cell_picks::picked_bin;
use frame_header::FrameKind;
use lta_spec::{Refusal, Shape};

// The bin that a pick takes of cell c, by its place in the cell's list.
fn bin_of(run: Run, c: u64) -> u64
    requires { (c < run.shape.cells)
        × ((unit_at run.shape c (run_of run.shape run.mem.now)).picks.next < 2 * run.shape.bins) }
    ensures { result
        ≡ picked_bin run.entry.shape.lags run.entry.shape.bins
        (unit_at run.entry.shape c (run_of run.entry.shape run.entry.mem.now)) }
{
    picked_bin(run.cell_at(c)) as u64
}

// The bank of a bin by its place.
fn bank_of(bins: u64, k: u64) -> u64
    ensures { result ≡ bank_of bins k }
{
    if k < bins { 0 } else { 1 }
}

// Its data bin.
fn data_bin_of(bins: u64, k: u64) -> u64
    ensures { result ≡ data_bin_of bins k }
{
    if k < bins { k } else { k - bins }
}

// The places of picks behind cell c, in the last word, and behind bin k of it.
fn point(s: Shape, mem: &mut [u64], c: u64, k: u64)
    requires { Celled s mem.old c × (k < 2 * s.bins) }
    ensures { Lays (run_layout s) mem.new (pointed s c k (run_of s mem.old)) }
{
    let run = Run { shape: s, mem };
    let at = run.cell_start(c);
    let last = mem.len() - 1;
    mem[last] = place_after(s.cells, c);
    mem[at + NEXT_BIN] = place_after(2 * s.bins, k);
}

// A pick whose tests passed.
fn pick_bin(s: Shape, mem: &mut [u64], out: &mut [u8])
    requires { PicksFrom s mem.old out.old }
    ensures frame { out.new
        ≡ (picks_bin s out.old (run_of s mem.old)).out }
    ensures leaves { Lays (run_layout s) mem.new
        (picks_bin s out.old (run_of s mem.old)).run }
{
    let run = Run { shape: s, mem };
    let c = picked_cell(run);
    let k = bin_of(run, c);
    let bank = bank_of(s.bins, k);
    let bin = data_bin_of(s.bins, k);
    emit_bin(s, mem, c, bank, bin, out);
    point(s, mem, c, k);
}

// A pick: the frame of the bin whose turn it is into the buffer lent.
pub fn pick(s: Shape, mem: &mut [u64], out: &mut [u8]) -> Result<u64, Refusal>
    ensures answer { numbered_as result ≡ (step s (pick out.old) mem.old).answer }
    ensures frame { out.new ≡ (step s (pick out.old) mem.old).out }
    ensures leaves { mem.new ≡ (step s (pick out.old) mem.old).mem }
{
    pick_verdict(s, mem, out)?;
    pick_bin(s, mem, out);
    Ok(FrameKind::Accumulated.length(s.lags))
}
