// The kinds of frames, the header words of a frame and its fields, the rules on fields that reader and writer share,
// and a whole frame, put from its fields and its lag words.
#![tactic(auto)]

ghost use Rattle.std.specs.Prelude.{◌≡◌, true, ◌*◌, ◌≤◌, length};
ghost use Rattle.lta_spec.specs.Words.{splice};
ghost use Rattle.lta_spec.specs.Bytes.{bytes_of, words_of};
ghost use Rattle.lta_spec.specs.Frame.{head_words, first_words, header, fields_of, fixed_ok, fields_ok, bias_ok};

mod kind;
mod whole;

use frame_codec::{put_word, put_words, word_at};
pub use kind::{FrameKind, frame_length, head_words, lags_at};
use lta_spec::{ACCUMULATED, Fields, PEAK, SPEED_FRAME};
pub use whole::put_frame_of;

// The header words that are ticks, centre count and DATA_BIAS.
pub const TICKS: usize = 2;

pub const CENTRE: usize = 3;

pub const BIAS: usize = 7;

// Does each field keep to its rule? (No u32 is too wide for W5.)
#[tactic(auto, unfolding(lta_spec::specs::Frame::fields_ok))]
pub fn fields_ok(f: Fields) -> bool
    ensures { result ≡ fields_ok f }
{
    (f.kind == ACCUMULATED || f.kind == SPEED_FRAME)
        && f.cell <= 15
        && f.block <= 255
        && f.bin <= 999
        && f.bank <= 1
        && f.ticks <= 16777215
        && f.centre <= f.ticks
        && f.edge <= f.ticks
        && f.offset <= 255999999
}

// The header words W0 to W6.
#[tactic(auto, unfolding(lta_spec::specs::Frame::fields_ok))]
fn first_words(f: Fields) -> [u32; 7]
    requires { fields_ok f ≡ true }
    ensures { result ≡ first_words f }
{
    let w0 = f.kind + 2048 * f.cell;
    let w1 = 256 * f.block + 65536 * f.bin + 2147483648 * f.bank;
    [w0, w1, f.ticks, f.centre, f.edge, f.second, f.offset]
}

// The header words of the fields, at the start of a frame's body; DATA_BIAS is worked out.
pub fn put_header(body: &mut [u8], f: Fields)
    requires { (fields_ok f ≡ true) × (4 * head_words f.kind ≤ length body.old) }
    ensures { body.new ≡ splice body.old 0 (bytes_of (header f)) }
{
    let first = first_words(f);
    put_words(body, 0, &first, |w| w);
    if f.kind == SPEED_FRAME {
        put_word(body, BIAS, PEAK * f.ticks);
    }
}

// The fields of the header words at the start of a frame's body.
#[tactic(auto, unfolding(lta_spec::specs::Frame::fields_of))]
pub fn fields_of(body: &[u8]) -> Fields
    requires { 28 ≤ length body.now }
    ensures { result ≡ fields_of (words_of body.now) }
{
    let a = word_at(body, 0);
    let b = word_at(body, 1);
    Fields {
        kind: a % 8,
        cell: a / 2048 % 16,
        block: b / 256 % 256,
        bin: b / 65536 % 32768,
        bank: b / 2147483648,
        ticks: word_at(body, TICKS),
        centre: word_at(body, CENTRE),
        edge: word_at(body, 4),
        second: word_at(body, 5),
        offset: word_at(body, 6),
    }
}

// Has neither W0 nor W1 a bit set that is no field's?
#[tactic(auto, unfolding(lta_spec::specs::Frame::fixed_ok, lta_spec::specs::Frame::fields_of))]
pub fn fixed_ok(body: &[u8]) -> bool
    requires { 8 ≤ length body.now }
    ensures { result ≡ fixed_ok (words_of body.now) }
{
    let a = word_at(body, 0);
    let b = word_at(body, 1);
    let w0 = a % 8 + 2048 * (a / 2048 % 16);
    let w1 = 256 * (b / 256 % 256) + 65536 * (b / 65536 % 32768) + 2147483648 * (b / 2147483648);
    a == w0 && b == w1
}

// Is DATA_BIAS, where the kind has it, that of the ticks?
#[tactic(auto, unfolding(lta_spec::specs::Frame::bias_ok))]
pub fn bias_ok(kind: u32, body: &[u8]) -> bool
    requires { 4 * head_words kind ≤ length body.now }
    ensures { result ≡ bias_ok kind (words_of body.now) }
{
    if kind != SPEED_FRAME {
        return true;
    }
    let bias = word_at(body, BIAS);
    let ticks = word_at(body, TICKS);
    u64::from(bias) == u64::from(PEAK) * u64::from(ticks)
}
