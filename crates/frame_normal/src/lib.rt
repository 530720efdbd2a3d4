// A lag of a frame, normalised by its centre count.
#![tactic(auto)]

ghost use Rattle.std.specs.Prelude.{◌≡◌, ◌+◌, ◌*◌, ◌<◌, ◌≤◌, length, get_or};
ghost use Rattle.lta_spec.specs.Answer.{lag_as, normalised_as};
ghost use Rattle.lta_spec.specs.Bytes.{words_of, signed};
ghost use Rattle.lta_spec.specs.Frame.{head_words};
ghost use Rattle.lta_spec.specs.FrameCalls.{quotient, normal_of, normal_answer};
ghost use Rattle.frame_header.specs.Kind.{kind_number};

use frame_codec::{number_of, word_at};
use frame_header::{CENTRE, FrameKind};
use frame_read::read_kind;
use lta_spec::{Complex, Refusal};

// The number of word k of the bytes divided by c, rounded once: neither conversion loses anything.
fn part_of(body: &[u8], k: usize, c: u32) -> f64
    requires { 4 * k + 4 ≤ length body.now }
    ensures { result ≡ quotient (signed (get_or (words_of body.now) k 0)) c }
{
    f64::from(number_of(word_at(body, k))) / f64::from(c)
}

// Lag k of the words behind the mark; none where the centre count is 0.
fn lag_of(kind: FrameKind, body: &[u8], k: u64) -> Option<Complex>
    requires { 4 * (head_words (kind_number kind) + 2 * k + 2) ≤ length body.now }
    ensures { lag_as result ≡ normal_of (kind_number kind) (words_of body.now) k }
{
    let centre = word_at(body, CENTRE);
    if centre == 0 {
        return None;
    }
    let at = kind.head_words() + 2 * k as usize;
    let re = part_of(body, at, centre);
    let im = part_of(body, at + 1, centre);
    Some(Complex { re, im })
}

// Lag k of a frame, normalised by its centre count: refused as in reading, then by 12.
#[tactic(auto, using(crate::proofs::Laws::tested_then))]
pub fn normalised_lag(n: u64, bytes: &[u8], k: u64) -> Result<Option<Complex>, Refusal>
    ensures { normalised_as result ≡ normal_answer n bytes.now k }
{
    let kind = read_kind(n, bytes)?;
    Refusal::NoLag.unless(k < n)?;
    Ok(lag_of(kind, &bytes[2..], k))
}
