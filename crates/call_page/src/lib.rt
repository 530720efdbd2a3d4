// The loss page: the losses of every cell as lines of text in the buffer lent.
#![tactic(auto)]

ghost use Rattle.std.specs.Prelude.{◌≡◌, ◌≤◌, true, length};
ghost use Rattle.lta_spec.specs.Words.{splice};
ghost use Rattle.lta_spec.specs.Page.{page_length};
ghost use Rattle.lta_spec.specs.Answer.{numbered_as};
ghost use Rattle.lta_spec.specs.Call.Call.{page};
ghost use Rattle.lta_spec.specs.Damage.{ledgers_sound};
ghost use Rattle.lta_spec.specs.Step.{loss_page, step};
ghost use Rattle.call_run.specs.Runs.{run_of};

use call_run::Run;
use cell_layout::{LOSSES, RUN_LIMIT};
use cell_page::{page_sound, put_cell_lines};
use lta_spec::{Counts, Refusal, Shape};
use page_lines::{LINE, put_totals_line};

// The bytes of the lines of one cell.
const CELL: usize = LINE * LOSSES;

// The length of a page.
fn page_length(cells: u64) -> usize
    requires { cells ≤ 16 }
    ensures { result ≡ page_length cells }
{
    LINE * (LOSSES * cells as usize + 1)
}

// Are the losses of every cell within their limits, each and together?
fn ledgers_sound(run: Run) -> bool
    ensures { result ≡ ledgers_sound (run_of run.entry.shape run.entry.mem.now).units }
{
    let mut ok = true;
    for c in 0..run.shape.cells {
        let sound = page_sound(run.cell_at(c));
        ok = ok & sound;
    }
    ok
}

// The lines of every cell, and the totals.
fn put_page(run: Run, out: &mut [u8])
    requires sound { ledgers_sound (run_of run.shape run.mem.now).units ≡ true }
    requires room { page_length run.shape.cells ≤ length out.old }
    ensures { out.new ≡ splice out.old 0 (loss_page (run_of run.entry.shape run.entry.mem.now)) }
{
    let mut totals = Counts {
        ticks: 0,
        edge: 0,
        centre: 0,
    };
    for c in 0..run.shape.cells {
        let cell = run.cell_at(c);
        let at = CELL * c as usize;
        totals = put_cell_lines(out, at, cell, c, totals);
    }
    put_totals_line(out, CELL * run.shape.cells as usize, totals);
}

// A loss page into the buffer lent. 1, 2, 11, 10.
pub fn page(s: Shape, mem: &[u64], out: &mut [u8]) -> Result<u64, Refusal>
    ensures answer { numbered_as result ≡ (step s (page out.old) mem.now).answer }
    ensures page { out.new ≡ (step s (page out.old) mem.now).out }
{
    let run = Run::of(s, mem)?;
    let bytes = page_length(run.shape.cells);
    Refusal::Damaged.unless((run.time() <= RUN_LIMIT) & ledgers_sound(run))?;
    Refusal::ShortBuffer.unless(bytes <= out.len())?;
    put_page(run, out);
    Ok(bytes as u64)
}
