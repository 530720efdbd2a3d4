// The reading of one loss of one cell.
#![tactic(auto)]

ghost use Rattle.std.specs.Prelude.{◌≡◌};
ghost use Rattle.lta_spec.specs.Answer.{ledger_as};
ghost use Rattle.lta_spec.specs.Call.Call.{reading};
ghost use Rattle.lta_spec.specs.Step.{step};

use call_run::Run;
use cell_layout::{LOSSES, RUN_LIMIT};
use cell_parts::losses_ok;
use cell_reads::read_loss;
use lta_spec::{Refusal, Shape, Sums};

// The numbers of one loss of one cell at one lag. 1, 2, 5, 12, 11.
pub fn reading(s: Shape, mem: &[u64], cell: u64, lag: u64, loss: u64) -> Result<Sums, Refusal>
    ensures { ledger_as result ≡ (step s (reading cell lag loss) mem.now).answer }
{
    let run = Run::of(s, mem)?;
    let part = run.cell(cell)?;
    Refusal::NoLag.unless((lag < run.shape.lags) & ((1 <= loss) & (loss <= LOSSES as u64)))?;
    Refusal::Damaged.unless((run.time() <= RUN_LIMIT) & losses_ok(part))?;
    Ok(read_loss(part, lag as usize, (loss - 1) as usize))
}
