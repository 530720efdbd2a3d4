// The shift registers of one cell.
#![tactic(auto)]

ghost use Rattle.lta_spec.specs.Memory.{unit_layout};
ghost use Rattle.cell_layout.specs.Lays.{Lays};
ghost use Rattle.cell_layout.specs.Views.{IsCell, unit_by};
ghost use Rattle.cell_shift.specs.Shifts.{moved};

use cell_layout::CellShape;
use lag_registers::shift;

// Both shift registers move: they take the entries x and y.
pub fn shift_both(cell: &mut [u64], shape: CellShape, x: u64, y: u64)
    requires { IsCell shape cell.old }
    ensures { Lays (unit_layout shape.lags shape.bins) cell.new (moved shape.lags x y (unit_by shape cell.old)) }
{
    shift(cell, shape.x_register(), shape.depth(), x);
    shift(cell, shape.y_register(), shape.depth(), y);
}
