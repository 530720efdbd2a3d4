// The lines that a script prints, put into a lent buffer: each function puts its bytes from `at` on and answers the
// place behind them.
#![tactic(auto)]

ghost use Rattle.std.specs.Prelude.{◌≡◌, [], ◌∷◌, ◌+◌, ◌*◌, ◌≤◌, pos, length};
ghost use Rattle.lta_spec.specs.Words.{splice};
ghost use Rattle.lta_spec.specs.Answer.{numbered_as};
ghost use Rattle.frame_header.specs.Kind.{kind_number};
ghost use Rattle.script_lines.specs.Lines.{spaced, line, letters_of, word_field, word_fields};
ghost use Rattle.script_lines.specs.Lines.{frame_fields, sent_kind, value_fields, answer_line, end_line, most_bytes};

use cell_layout::SPEED;
use frame_header::FrameKind;
use frame_word::{number_of, word_at};
use lta_spec::Refusal;
use script_records::Record;
use text::{put_byte, put_bytes, put_number};

// The bytes of the longest frame of the script's run, a speed frame of two lags.
pub const FRAME: usize = 54;

// How the words of a frame are printed: lags signed, header words and the sum plain.
#[derive(Clone, Copy)]
enum Printed {
    Plain,
    Signed,
}

// A space and a number.
fn put_field(lines: &mut [u8], at: usize, n: u64) -> usize
    requires { at + length (spaced (pos n ∷ [])) ≤ length lines.old }
    ensures behind { result ≡ at + length (spaced (pos n ∷ [])) }
    ensures leaves { lines.new ≡ splice lines.old at (spaced (pos n ∷ [])) }
{
    let i = put_byte(lines, at, b' ');
    put_number(lines, i, n)
}

// A space and a signed number.
fn put_signed(lines: &mut [u8], at: usize, z: i32) -> usize
    requires { at + length (spaced (z ∷ [])) ≤ length lines.old }
    ensures behind { result ≡ at + length (spaced (z ∷ [])) }
    ensures leaves { lines.new ≡ splice lines.old at (spaced (z ∷ [])) }
{
    let size = u64::from(z.unsigned_abs());
    if z < 0 {
        let i = put_bytes(lines, at, b" -");
        put_number(lines, i, size)
    } else {
        put_field(lines, at, size)
    }
}

// A space and a word.
fn put_word(lines: &mut [u8], at: usize, w: u32, printed: Printed) -> usize
    requires { at + length (spaced (word_field printed w ∷ [])) ≤ length lines.old }
    ensures behind { result ≡ at + length (spaced (word_field printed w ∷ [])) }
    ensures leaves { lines.new ≡ splice lines.old at (spaced (word_field printed w ∷ [])) }
{
    match printed {
        Printed::Plain => put_field(lines, at, u64::from(w)),
        Printed::Signed => put_signed(lines, at, number_of(w)),
    }
}

// The n words from word k on, each behind a space.
fn put_words(
    lines: &mut [u8],
    at: usize,
    body: &[u8],
    k: usize,
    n: usize,
    printed: Printed,
) -> usize
    requires inside { 4 * (k + n) ≤ length body.now }
    requires room { at + length (spaced (word_fields printed k n body.now)) ≤ length lines.old }
    ensures behind { result ≡ at + length (spaced (word_fields printed k n body.now)) }
    ensures leaves { lines.new
        ≡ splice lines.old at (spaced (word_fields printed k n body.now)) }
{
    let mut end = at;
    for i in 0..n {
        end = put_word(lines, end, word_at(body, k + i), printed);
    }
    end
}

// The words of a frame of two lags: header words, lags, sum.
fn put_frame(lines: &mut [u8], at: usize, kind: FrameKind, frame: &[u8; FRAME]) -> usize
    requires { at + length (spaced (frame_fields (kind_number kind) frame.now)) ≤ length lines.old }
    ensures behind { result ≡ at + length (spaced (frame_fields (kind_number kind) frame.now)) }
    ensures leaves { lines.new
        ≡ splice lines.old at (spaced (frame_fields (kind_number kind) frame.now)) }
{
    let body = &frame[2..];
    let head = kind.head_words();
    let i = put_words(lines, at, body, 0, head, Printed::Plain);
    let j = put_words(lines, i, body, head, 4, Printed::Signed);
    put_words(lines, j, body, head + 4, 1, Printed::Plain)
}

// The kind of the frame that a record's call leaves in the buffer where it is accepted.
fn sent_kind(r: Record) -> Option<FrameKind>
    ensures { result ≡ sent_kind r }
{
    match r {
        Record::Dump(d) if d.command == SPEED => Some(FrameKind::Speed),
        Record::Emit(_) => Some(FrameKind::Accumulated),
        Record::Tick(_) | Record::Dump(_) | Record::Integrate(_) => None,
    }
}

// What a record that is accepted prints behind 0.
fn put_value(lines: &mut [u8], at: usize, r: Record, k: u64, frame: &[u8; FRAME]) -> usize
    requires { at + length (spaced (value_fields r k frame.now)) ≤ length lines.old }
    ensures behind { result ≡ at + length (spaced (value_fields r k frame.now)) }
    ensures leaves { lines.new
        ≡ splice lines.old at (spaced (value_fields r k frame.now)) }
{
    match sent_kind(r) {
        Some(kind) => put_frame(lines, at, kind, frame),
        None => put_field(lines, at, k),
    }
}

// The line of a record that is refused, by its number.
fn put_refusal(lines: &mut [u8], at: usize, r: Record, k: u64) -> usize
    requires { at + most_bytes r ≤ length lines.old }
    ensures behind { result ≡ at + length (line (letters_of r) (pos k ∷ [])) }
    ensures leaves { lines.new
        ≡ splice lines.old at (line (letters_of r) (pos k ∷ [])) }
    ensures few { result ≤ at + most_bytes r }
{
    let i = put_bytes(lines, at, &r.kind().letters());
    let j = put_field(lines, i, k);
    put_byte(lines, j, b'\n')
}

// The line of a record that is accepted: 0, and what it answers.
fn put_accepted(lines: &mut [u8], at: usize, r: Record, k: u64, frame: &[u8; FRAME]) -> usize
    requires { at + most_bytes r ≤ length lines.old }
    ensures behind { result ≡ at + length (line (letters_of r) (pos 0 ∷ value_fields r k frame.now)) }
    ensures leaves { lines.new
        ≡ splice lines.old at (line (letters_of r) (pos 0 ∷ value_fields r k frame.now)) }
    ensures few { result ≤ at + most_bytes r }
{
    let i = put_bytes(lines, at, &r.kind().letters());
    let j = put_field(lines, i, 0);
    let e = put_value(lines, j, r, k, frame);
    put_byte(lines, e, b'\n')
}

// The line of a record's answer; the frame of an emission or of a speed dump is in the buffer.
pub fn put_answer(
    lines: &mut [u8],
    at: usize,
    r: Record,
    t: Result<u64, Refusal>,
    frame: &[u8; FRAME],
) -> usize
    requires { at + most_bytes r ≤ length lines.old }
    ensures behind { result ≡ at + length (answer_line r (numbered_as t) frame.now) }
    ensures leaves { lines.new
        ≡ splice lines.old at (answer_line r (numbered_as t) frame.now) }
    ensures few { result ≤ at + most_bytes r }
{
    match t {
        Ok(k) => put_accepted(lines, at, r, k, frame),
        Err(why) => put_refusal(lines, at, r, u64::from(why)),
    }
}

// The last line.
pub fn put_end(lines: &mut [u8], at: usize, number: u64) -> usize
    requires { at + length (end_line number) ≤ length lines.old }
    ensures behind { result ≡ at + length (end_line number) }
    ensures leaves { lines.new ≡ splice lines.old at (end_line number) }
{
    let i = put_bytes(lines, at, b"END");
    let j = put_field(lines, i, number);
    put_byte(lines, j, b'\n')
}
