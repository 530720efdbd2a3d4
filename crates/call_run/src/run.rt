// A run for reading: t, its place of picks, and the words of a cell.

ghost use Rattle.std.specs.Prelude.{◌≡◌, [], ◌∷◌, true, ◌<◌, ltb, length, IfOk};
ghost use Rattle.lta_spec.specs.Refusals.{test, first_of};
ghost use Rattle.lta_spec.specs.Shape.{shape_ok};
ghost use Rattle.lta_spec.specs.Size.{cell_words, memory_words, host_tests};
ghost use Rattle.lta_spec.specs.declared.Refusal.TheVariants.{NoCell};
ghost use Rattle.call_run.specs.Runs.{verdict_in, run_of, Starts, CellOf};

use cell_layout::{CELLS, Cell, CellShape, TIME};
use lta_spec::{Refusal, Shape};
use shape::{cell_words, host_verdict};

// A shape within its limits, and work memory of as many words as it needs.
#[derive(Clone, Copy)]
pub struct Run<'a> {
    pub shape: Shape,
    pub mem: &'a [u64],
    pub ghost shaped: { shape_ok shape ≡ true },
    pub ghost whole: { length mem.now ≡ memory_words shape },
}

impl<'a> Run<'a> {
    // 1, 2; else the run.
    pub fn of(shape: Shape, mem: &'a [u64]) -> Result<Run<'a>, Refusal>
        ensures says { verdict_in result ≡ first_of (host_tests shape (length mem.now)) }
        ensures run { IfOk result (λ r. (r.shape ≡ shape) × (r.mem.now ≡ mem.now)) }
    {
        host_verdict(shape, mem.len())?;
        Ok(Run { shape, mem })
    }

    // t.
    pub fn time(self) -> u64
        ensures { result ≡ (run_of self.entry.shape self.entry.mem.now).t }
    {
        self.mem[TIME]
    }

    // The cell at which the next pick starts: the last word.
    pub fn next(self) -> u64
        ensures { result ≡ (run_of self.entry.shape self.entry.mem.now).next }
    {
        self.mem[self.mem.len() - 1]
    }

    // The shape of each cell.
    pub fn cell_shape(self) -> CellShape
        ensures { (result.lags ≡ self.entry.shape.lags) × (result.bins ≡ self.entry.shape.bins) }
    {
        CellShape {
            lags: self.shape.lags as usize,
            bins: self.shape.bins as usize,
        }
    }

    // The words of each cell.
    pub fn cell_words(self) -> usize
        ensures { result ≡ cell_words self.entry.shape.lags self.entry.shape.bins }
    {
        cell_words(self.shape.lags as usize, self.shape.bins as usize)
    }

    // Where the words of cell c start: the cells stand behind t.
    pub fn cell_start(self, c: u64) -> usize
        requires { c < self.shape.cells }
        ensures { Starts self.entry.shape self.entry.mem.now c result }
    {
        CELLS + c as usize * self.cell_words()
    }

    // Cell c, where there is one.
    pub fn cell_at(self, c: u64) -> Cell<'a>
        requires { c < self.shape.cells }
        ensures { CellOf self.entry.shape self.entry.mem.now c result }
    {
        let at = self.cell_start(c);
        let e = at + self.cell_words();
        Cell {
            words: &self.mem[at..e],
            shape: self.cell_shape(),
        }
    }

    // 5; else cell c.
    pub fn cell(self, c: u64) -> Result<Cell<'a>, Refusal>
        ensures says { verdict_in result ≡ first_of (test (ltb c self.entry.shape.cells) NoCell ∷ []) }
        ensures cell { IfOk result (CellOf self.entry.shape self.entry.mem.now c) }
    {
        Refusal::NoCell.unless(c < self.shape.cells)?;
        Ok(self.cell_at(c))
    }
}
