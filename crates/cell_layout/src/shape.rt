// The shape of one cell, and where the parts of a cell of that shape stand among its words.

ghost use Rattle.std.specs.Prelude.{◌≡◌, ◌*◌, ◌<◌, ◌≤◌};
ghost use Rattle.lta_spec.specs.Size.{row_words, depth, bin_words, cell_words};
ghost use Rattle.lta_spec.specs.Place.{loss_count};
ghost use Rattle.cell_layout.specs.Offsets.{held_row_at, loss_row_at, xs_at, ys_at, state_at, fixed_words, Stands};

use super::{OPEN_ROW, ROW, SUMS};

// So many lags, and so many data bins in each of two banks.
#[derive(Clone, Copy)]
pub struct CellShape {
    pub lags: usize,
    pub bins: usize,
    pub ghost few_lags: { lags ≤ 128 },
    pub ghost few_bins: { bins ≤ 1000 },
}

impl CellShape {
    // The words of a row.
    pub fn row_words(self) -> usize
        ensures { result ≡ row_words self.lags }
    {
        SUMS + 2 * self.lags
    }

    // The entries of a shift register.
    pub fn depth(self) -> usize
        ensures { result ≡ depth self.lags }
    {
        self.lags / 2 + 1
    }

    // The bins of both banks.
    pub fn all_bins(self) -> usize
        ensures { result ≡ 2 * self.bins }
    {
        2 * self.bins
    }

    // Where Held's row starts.
    pub fn held_row(self) -> usize
        ensures { Stands (held_row_at self.lags) (row_words self.lags) (fixed_words self.lags) result }
    {
        OPEN_ROW + self.row_words()
    }

    // Where the row of loss i + 1 starts.
    pub fn loss_row(self, i: usize) -> usize
        requires { i < loss_count }
        ensures { Stands (loss_row_at self.lags i) (row_words self.lags) (fixed_words self.lags) result }
    {
        OPEN_ROW + (2 + i) * self.row_words()
    }

    // Where the X shift register starts.
    pub fn x_register(self) -> usize
        ensures { Stands (xs_at self.lags) (depth self.lags) (fixed_words self.lags) result }
    {
        OPEN_ROW + 8 * self.row_words()
    }

    // Where the Y shift register starts.
    pub fn y_register(self) -> usize
        ensures { Stands (ys_at self.lags) (depth self.lags) (fixed_words self.lags) result }
    {
        self.x_register() + self.depth()
    }

    // Where bin k of both banks starts.
    pub fn bin_start(self, k: usize) -> usize
        requires { k < 2 * self.bins }
        ensures { Stands (state_at self.lags k) (bin_words self.lags) (cell_words self.lags self.bins) result }
    {
        self.y_register() + self.depth() + k * (ROW + self.row_words())
    }
}
