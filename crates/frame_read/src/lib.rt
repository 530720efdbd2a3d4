// The reader of frames: its verdict, the fields, and the part that holds the lag pairs.
#![tactic(auto)]

ghost use Rattle.std.specs.Prelude.{◌≡◌, ◌+◌, ◌*◌, ◌≤◌, length, IfOk, IfErr};
ghost use Rattle.lta_spec.specs.Answer.{parsed_as};
ghost use Rattle.lta_spec.specs.Bytes.{words_of};
ghost use Rattle.lta_spec.specs.Refusals.{first_of};
ghost use Rattle.lta_spec.specs.Frame.{head_words};
ghost use Rattle.lta_spec.specs.FrameCalls.{summed, ruled, kind_by, body_tests, read_verdict, read_answer};
ghost use Rattle.lta_spec.specs.FrameCalls.{lag_span, lag_part};
ghost use Rattle.frame_header.specs.Kind.{kind_number};

use frame_codec::{sum_words, word_at, words_within};
use frame_header::{FrameKind, bias_ok, fields_of, fields_ok, fixed_ok};
use lta_spec::{Fields, MARK, PEAK, Refusal, Span};
use shape::lag_count_ok;

// 15: is the word behind the first k their sum?
#[tactic(auto, unfolding(lta_spec::specs::FrameCalls::summed))]
fn sum_ok(body: &[u8], k: usize) -> bool
    requires { 4 * k + 4 ≤ length body.now }
    ensures { result ≡ summed k (words_of body.now) }
{
    word_at(body, k) == sum_words(body, k)
}

// 16: the rules on the words behind the mark of a frame whose length is that of the kind.
#[tactic(auto, unfolding(lta_spec::specs::FrameCalls::ruled, lta_spec::specs::Frame::fields_ok))]
fn rules_ok(kind: FrameKind, n: u64, body: &[u8]) -> bool
    requires { 4 * (head_words (kind_number kind) + 2 * n) ≤ length body.now }
    ensures { result ≡ ruled (kind_number kind) n (words_of body.now) }
{
    let f = fields_of(body);
    fixed_ok(body)
        && f.kind == u32::from(kind)
        && fields_ok(f)
        && words_within(body, kind.head_words(), 2 * n as usize, PEAK * f.ticks)
}

// 15, 16, 18: the words behind the mark.
fn body_verdict(kind: FrameKind, n: u64, body: &[u8]) -> Result<(), Refusal>
    requires { 4 * (head_words (kind_number kind) + 2 * n) + 4 ≤ length body.now }
    ensures { result ≡ first_of (body_tests (kind_number kind) n (words_of body.now)) }
{
    Refusal::WrongSum.unless(sum_ok(body, kind.head_words() + 2 * n as usize))?;
    Refusal::BadField.unless(rules_ok(kind, n, body))?;
    Refusal::WrongBias.unless(bias_ok(kind.into(), body))
}

// What the reader says of the bytes: 1, 13, 14, 15, 16, 18, or the kind of the frame that they are.
#[tactic(auto, unfolding(lta_spec::specs::FrameCalls::read_verdict, lta_spec::specs::FrameCalls::marked))]
pub fn read_kind(n: u64, bytes: &[u8]) -> Result<FrameKind, Refusal>
    ensures ok { IfOk result
        (λ kind. (read_verdict n bytes.now ≡ Ok tt) × (kind_number kind ≡ kind_by n bytes.now)) }
    ensures err { IfErr result (λ r. read_verdict n bytes.now ≡ Err r) }
{
    Refusal::BadShape.unless(lag_count_ok(n))?;
    let kind = FrameKind::of_length(n, bytes.len() as u64);
    Refusal::WrongLength.unless(bytes.len() as u64 == kind.length(n))?;
    Refusal::WrongMark.unless(bytes.starts_with(&MARK))?;
    body_verdict(kind, n, &bytes[2..])?;
    Ok(kind)
}

// The fields of a frame.
pub fn read_frame(n: u64, bytes: &[u8]) -> Result<Fields, Refusal>
    ensures { parsed_as result ≡ read_answer n bytes.now }
{
    read_kind(n, bytes)?;
    Ok(fields_of(&bytes[2..]))
}

// Where the part of a frame is that holds its lag pairs; the empty part where the reader refuses.
pub fn lag_span(n: u64, bytes: &[u8]) -> Span
    ensures { result ≡ lag_span n bytes.now }
{
    match read_kind(n, bytes) {
        Ok(kind) => Span {
            at: kind.lags_at(),
            length: 8 * n,
        },
        Err(_) => Span { at: 0, length: 0 },
    }
}

// That part.
pub fn lag_part(n: u64, bytes: &[u8]) -> &[u8]
    ensures { result.now ≡ lag_part n bytes.now }
{
    let p = lag_span(n, bytes);
    let at = p.at as usize;
    &bytes[at..at + p.length as usize]
}
