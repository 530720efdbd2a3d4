// Runs of 32-bit words in bytes: put, summed, tested; lag numbers as two's complement words.
#![tactic(auto)]

ghost use Rattle.std.specs.Prelude.{◌≡◌, ℕ, ◌+◌, ◌*◌, ◌≤◌, map, length, take};
ghost use Rattle.lta_spec.specs.Words.{part, splice, every};
ghost use Rattle.lta_spec.specs.Bytes.{bytes_of, words_of, signed};
ghost use Rattle.lta_spec.specs.Frame.{checksum, within};
ghost use Rattle.frame_codec.specs.Makes.{Makes};

use frame_word::word_within;
pub use frame_word::{number_of, put_word, word_at, word_of};

// The sum of the first n words, wrapping at 32 bits.
pub fn sum_words(s: &[u8], n: usize) -> u32
    requires { 4 * n ≤ length s.now }
    ensures { result ≡ checksum (take n (words_of s.now)) }
{
    (0..n).fold(0, |sum: u32, i| sum.wrapping_add(word_at(s, i)))
}

// The words that `word` makes of the values, from word k on.
pub fn put_words<T: Copy, F: Fn(T) -> u32>(s: &mut [u8], k: usize, values: &[T], word: F)
    requires room { 4 * (k + length values.now) ≤ length s.old }
    requires callable { F.IsAlwaysCallable word }
    ensures { (f : T → ℕ) → Makes (F.post word) f values.now
        → s.new ≡ splice s.old (4 * k) (bytes_of (map f values.now)) }
{
    for (i, value) in values.iter().enumerate() {
        put_word(s, k + i, word(*value));
    }
}

// Is none of the numbers of the n words from word k further from 0 than b? With no branch at a word.
pub fn words_within(s: &[u8], k: usize, n: usize, b: u32) -> bool
    requires { 4 * (k + n) ≤ length s.now }
    ensures { result ≡ every (within b) (map signed (part k n (words_of s.now))) }
{
    (k..k + n).fold(true, |ok, i| ok & word_within(word_at(s, i), b))
}

// Is none of the numbers further from 0 than b? With no branch at a number.
pub fn lags_within(lags: &[i32], b: u32) -> bool
    ensures { result ≡ every (within b) lags.now }
{
    lags.iter().fold(true, |ok, x| ok & (x.unsigned_abs() <= b))
}
