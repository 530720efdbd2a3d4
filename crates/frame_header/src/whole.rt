// A whole frame, from its fields and what makes a word of each lag number.
ghost use Rattle.std.specs.Prelude.{◌≡◌, true, ℕ, ◌+◌, ◌*◌, ◌≤◌, length, map};
ghost use Rattle.lta_spec.specs.Words.{splice};
ghost use Rattle.lta_spec.specs.Bytes.{bytes_of};
ghost use Rattle.lta_spec.specs.Frame.{head_words, sealed, frame_of, header, fields_ok};
ghost use Rattle.frame_codec.specs.Makes.{Makes};

use crate::kind::FrameKind;
use crate::put_header;
use frame_codec::{put_word, put_words, sum_words};
use lta_spec::{Fields, MARK};

// The words of a frame, in the bytes behind its mark.
fn put_body<T: Copy, F: Fn(T) -> u32>(body: &mut [u8], f: Fields, lags: &[T], word: F)
    requires fields { fields_ok f ≡ true }
    requires room { 4 * (head_words f.kind + length lags.now + 1) ≤ length body.old }
    requires callable { F.IsAlwaysCallable word }
    ensures { (v : T → ℕ) → Makes (F.post word) v lags.now
        → body.new ≡ splice body.old 0 (bytes_of (sealed (header f) (map v lags.now))) }
{
    put_header(body, f);
    let head = FrameKind::of(f).head_words();
    put_words(body, head, lags, word);
    let k = head + lags.len();
    let sum = sum_words(body, k);
    put_word(body, k, sum);
}

// The frame of the fields and of the words that `word` makes of the lags, at the start of out.
pub fn put_frame_of<T: Copy, F: Fn(T) -> u32>(out: &mut [u8], f: Fields, lags: &[T], word: F)
    requires fields { fields_ok f ≡ true }
    requires room { 2 + 4 * (head_words f.kind + length lags.now + 1) ≤ length out.old }
    requires callable { F.IsAlwaysCallable word }
    ensures { (v : T → ℕ) → Makes (F.post word) v lags.now
        → out.new ≡ splice out.old 0 (frame_of (header f) (map v lags.now)) }
{
    let (mark, body) = out.split_at_mut(2);
    mark.copy_from_slice(&MARK);
    put_body(body, f, lags, word);
}
