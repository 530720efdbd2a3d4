// The host's refusals: 1, a shape value out of its limits; 2, work memory not exactly the needed length.
#![tactic(auto)]

ghost use Rattle.std.specs.Prelude.{◌≡◌, true, ◌≤◌};
ghost use Rattle.lta_spec.specs.Refusals.{first_of};
ghost use Rattle.lta_spec.specs.Shape.{lag_count_ok, shape_ok};
ghost use Rattle.lta_spec.specs.Size.{cell_words, memory_words, host_tests};

use lta_spec::{Refusal, Shape};

// May a cell have n lags?
pub fn lag_count_ok(n: u64) -> bool
    ensures { result ≡ lag_count_ok n }
{
    (2 <= n) & (n <= 128) & (n % 2 == 0)
}

// Is each value of the shape within its limits? S + M saturates, since the sum of two words could wrap.
pub fn shape_ok(s: Shape) -> bool
    ensures { result ≡ shape_ok s }
{
    let cells = (1 <= s.cells) & (s.cells <= 16);
    let bins = (1 <= s.bins) & (s.bins <= 1000);
    let blocks = (1 <= s.blocks) & (s.blocks <= 256) & (s.start.saturating_add(s.blocks) <= 256);
    let times = (1 <= s.rate) & (s.rate <= 256_000_000) & (s.second <= 2_147_483_647);
    cells & lag_count_ok(s.lags) & bins & blocks & times
}

// The words of one cell: flag, label, stamps, block counter and picks; Open, Held and the losses; two shift registers;
// bins.
pub fn cell_words(n: usize, bins: usize) -> usize
    requires { (n ≤ 128) × (bins ≤ 1000) }
    ensures { (result ≡ cell_words n bins) × (result ≤ 600000) }
{
    let row = 3 + 2 * n;
    10 + 8 * row + 2 * (n / 2 + 1) + 2 * bins * (2 + row)
}

// The words of work memory that a shape needs.
pub fn memory_words(s: Shape) -> usize
    requires { shape_ok s ≡ true }
    ensures { (result ≡ memory_words s) × (result ≤ 9600002) }
{
    let cells = s.cells as usize;
    2 + cells * cell_words(s.lags as usize, s.bins as usize)
}

// 1, then 2, or none.
#[tactic(auto, unfolding(lta_spec::specs::Size::host_tests))]
pub fn host_verdict(s: Shape, words: usize) -> Result<(), Refusal>
    ensures { result ≡ first_of (host_tests s words) }
{
    Refusal::BadShape.unless(shape_ok(s))?;
    Refusal::WrongMemory.unless(words == memory_words(s))
}
