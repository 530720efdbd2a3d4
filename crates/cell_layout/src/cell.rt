// One cell, for reading.

ghost use Rattle.std.specs.Prelude.{◌≡◌, length};
ghost use Rattle.lta_spec.specs.Size.{cell_words};

use super::CellShape;

// The words of a cell, and its shape.
#[derive(Clone, Copy)]
pub struct Cell<'a> {
    pub words: &'a [u64],
    pub shape: CellShape,
    pub ghost fits: { length words.now ≡ cell_words shape.lags shape.bins },
}
