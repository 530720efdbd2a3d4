// The lines of a loss page, put into a lent buffer.
#![tactic(auto)]

ghost use Rattle.std.specs.Prelude.{◌≡◌, ◌∷◌, ◌+◌, ◌≤◌, ◌<◌, length};
ghost use Rattle.lta_spec.specs.Words.{splice};
ghost use Rattle.lta_spec.specs.Decimal.{space, right_aligned};
ghost use Rattle.lta_spec.specs.Page.{Within, page_limit, count_columns, loss_line, totals_line};

use lta_spec::Counts;
use text::{put_byte, put_bytes, put_right};

// The bytes of a line, its line feed with them.
pub const LINE: usize = 41;

// A number in 11 columns behind a space; answers the place behind them.
fn put_column(out: &mut [u8], at: usize, n: u64) -> usize
    requires { (n ≤ page_limit) × (at + 12 ≤ length out.old) }
    ensures behind { result ≡ at + 12 }
    ensures leaves { out.new ≡ splice out.old at (space ∷ right_aligned 11 n) }
{
    let b = put_byte(out, at, b' ');
    put_right(out, b, 11, n)
}

// The columns of the three numbers, and the line feed.
fn put_counts(out: &mut [u8], at: usize, k: Counts)
    requires { Within page_limit k × (at + 37 ≤ length out.old) }
    ensures { out.new ≡ splice out.old at (count_columns k) }
{
    let a = put_column(out, at, k.ticks);
    let b = put_column(out, a, k.edge);
    let c = put_column(out, b, k.centre);
    put_byte(out, c, b'\n');
}

// The line of loss i + 1 of a cell.
pub fn put_loss_line(out: &mut [u8], at: usize, cell: u64, i: u64, k: Counts)
    requires { ((cell < 100) × (i < 9)) × (Within page_limit k × (at + 41 ≤ length out.old)) }
    ensures { out.new ≡ splice out.old at (loss_line cell i k) }
{
    let a = put_right(out, at, 2, cell);
    let b = put_byte(out, a, b' ');
    let c = put_right(out, b, 1, i + 1);
    put_counts(out, c, k);
}

// The last line.
pub fn put_totals_line(out: &mut [u8], at: usize, k: Counts)
    requires { Within page_limit k × (at + 41 ≤ length out.old) }
    ensures { out.new ≡ splice out.old at (totals_line k) }
{
    let a = put_bytes(out, at, b"** *");
    put_counts(out, a, k);
}
