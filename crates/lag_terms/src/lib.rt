// The lag loop, over decoded entries alone: lag 2j is X[j] · Y[j] and lag 2j + 1 is X[j + 1] · Y[j], where X stands
// newest first and Y oldest first. In each of xs and ys stand m samples, and behind them m phases.
#![tactic(auto)]

ghost use Rattle.std.specs.Prelude.{◌≡◌, ◌+◌, ◌*◌, ◌<◌, ◌≤◌, length, set};
ghost use Rattle.lta_spec.specs.Words.{splice};
ghost use Rattle.signal.specs.Signal.{turn_i, turn_q};
ghost use Rattle.lag_terms.specs.Terms.{lag_term, lag_terms};

use signal::lag_adds;

// Three quarters of a turn, in the top four bits, as phases are.
const Q_TURN: u16 = 12 * 4096;

// Writes what the lag of X[i] and Y[j] adds to I and to Q at k and k + 1.
fn put_lag(xs: &[u16], ys: &[u16], m: usize, i: usize, j: usize, k: usize, terms: &mut [u16])
    requires { (m + i < length xs.now) × (m + j < length ys.now) × (k + 1 < length terms.old) }
    ensures { terms.new
        ≡ set (set terms.old k (lag_term xs.now ys.now m i j turn_i)) (k + 1)
        (lag_term xs.now ys.now m i j turn_q) }
{
    let a = xs[i];
    let p = xs[m + i];
    let b = ys[j];
    let q = ys[m + j];
    terms[k] = lag_adds(a, p, b, q, 0);
    terms[k + 1] = lag_adds(a, p, b, q, Q_TURN);
}

// I and Q of lags 0 to 2h - 1, of registers of h + 1 entries.
pub fn put_lags(xs: &[u16], ys: &[u16], h: usize, terms: &mut [u16])
    requires { (h ≤ 64) × (2 * (h + 1) ≤ length xs.now) × (2 * (h + 1) ≤ length ys.now)
        × (4 * h ≤ length terms.old) }
    ensures { terms.new
        ≡ splice terms.old 0 (lag_terms xs.now ys.now (h + 1) h) }
{
    let m = h + 1;
    for j in 0..h {
        put_lag(xs, ys, m, j, j, 4 * j, terms);
        put_lag(xs, ys, m, j + 1, j, 4 * j + 2, terms);
    }
}
