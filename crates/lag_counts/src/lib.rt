// A tick is counted in a row: one tick more, and its valid products at the edge and the centre.
#![tactic(auto)]

ghost use Rattle.std.specs.Prelude.{◌≡◌, ◌∷◌, [], ℕ, ◌+◌, ◌*◌, ◌<◌, ◌≤◌, ◌^◌, length, get_or};
ghost use Rattle.lta_spec.specs.Words.{part, splice, sums};
ghost use Rattle.lta_spec.specs.Size.{depth};
ghost use Rattle.lag_counts.specs.Counts.{flag_counts};

use signal::both_valid;

// Counts a tick in the row at `to`, and its valid products at the edge and the centre.
fn add_counts(s: &mut [u64], to: usize, edge: u64, centre: u64)
    requires { (to + 3 ≤ length s.old) × (edge ≤ 1) × (centre ≤ 1)
        × ((i : ℕ) → i < 3 → get_or s.old (to + i) 0 + 1 < 2 ^ 64) }
    ensures { s.new
        ≡ splice s.old to (sums (part to 3 s.old) (1 ∷ edge ∷ centre ∷ [])) }
{
    s[to] += 1;
    s[to + 1] += edge;
    s[to + 2] += centre;
}

// Counts a tick of n lags in the row at `to`, by the validity of the decoded entries that meet at lags 0 and N/2.
pub fn count_tick(s: &mut [u64], xs: &[u16], ys: &[u16], to: usize, n: usize)
    requires { (n ≤ 128) × (3 * depth n ≤ length xs.now) × (3 * depth n ≤ length ys.now)
        × (to + 3 ≤ length s.old) × ((i : ℕ) → i < 3 → get_or s.old (to + i) 0 + 1 < 2 ^ 64) }
    ensures { s.new
        ≡ splice s.old to
        (sums (part to 3 s.old) (flag_counts n xs.now ys.now)) }
{
    let h = n / 2;
    let flags = 2 * (h + 1);
    let edge = both_valid(xs[flags], ys[flags]);
    let centre = both_valid(xs[flags + (h + 1) / 2], ys[flags + h / 2]);
    add_counts(s, to, edge, centre);
}
