// The tests of a model, in their order: a line for each, as `unless(k.cell < s.cells, ..)?`.
ghost use Rattle.std.specs.Prelude.{◌≡◌, cond, Ok, Err};

// This refusal, of whatever type, unless its test passes.
pub fn unless<E: Drop>(passes: bool, refusal: E) -> Result<(), E>
    ensures { result ≡ cond passes (Ok tt) (Err refusal) }
{
    if passes { Ok(()) } else { Err(refusal) }
}
