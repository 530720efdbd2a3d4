// The forecast: the ticks that a cell may still take before it is held off.
#![tactic(auto)]

ghost use Rattle.std.specs.Prelude.{◌≡◌};
ghost use Rattle.lta_spec.specs.Answer.{numbered_as};
ghost use Rattle.lta_spec.specs.Call.Call.{forecast};
ghost use Rattle.lta_spec.specs.Step.{step};

use call_run::Run;
use cell_layout::RUN_LIMIT;
use cell_parts::open_ok;
use cell_reads::forecast_cell;
use lta_spec::{Refusal, Shape};

// The ticks that a cell may still take before it is held off. 1, 2, 5, 11.
pub fn forecast(s: Shape, mem: &[u64], cell: u64) -> Result<u64, Refusal>
    ensures { numbered_as result ≡ (step s (forecast cell) mem.now).answer }
{
    let run = Run::of(s, mem)?;
    let part = run.cell(cell)?;
    let t = run.time();
    Refusal::Damaged.unless((t <= RUN_LIMIT) & open_ok(part, t))?;
    Ok(forecast_cell(part, t))
}
