// The script of document 01: each record's call with its line, and the records of some bytes one after the other.
#![tactic(auto)]

pub mod input;

ghost use Rattle.std.specs.Prelude.{◌≡◌, ◌+◌, ◌*◌, ◌≤◌, length};
ghost use Rattle.lta_spec.specs.Words.{splice};
ghost use Rattle.script_bytes.specs.Bytes.{stops_at};
ghost use Rattle.script_calls.specs.Calls.{step_of};
ghost use Rattle.script_lines.specs.Lines.{most_bytes};
ghost use Rattle.script.specs.Run.{blank, script_leaves};
ghost use Rattle.script.specs.Text.{record_line, script_lines};

use script_bytes::{next_at, size_at};
pub use script_calls::{call, shape};
use script_lines::{FRAME, put_answer};
use script_records::{Next, Record};

// Where the records of some bytes stopped, and how many bytes of lines there are.
#[derive(Clone, Copy)]
struct Ran {
    at: usize,
    len: usize,
}

// The call of a record, and its line from `at` on; answers the place behind it.
fn run(mem: &mut [u64], r: Record, lines: &mut [u8], at: usize) -> usize
    requires { at + most_bytes r ≤ length lines.old }
    ensures leaves { mem.new ≡ (step_of r blank mem.old).mem }
    ensures behind { result ≡ at + length (record_line r mem.old) }
    ensures line { lines.new ≡ splice lines.old at (record_line r mem.old) }
    ensures few { result ≤ at + most_bytes r }
{
    let mut out = [0u8; FRAME];
    let t = call(mem, r, &mut out);
    put_answer(lines, at, r, t, &out)
}

// Every whole record of some bytes in turn, their lines from the start of the buffer on. A record of s bytes has a
// line of at most 24 × s.
fn run_records(mem: &mut [u64], b: &[u8], lines: &mut [u8]) -> Ran
    requires { 24 * length b.now ≤ length lines.old }
    ensures leaves { mem.new ≡ script_leaves b.now mem.old }
    ensures stops { result.at ≡ stops_at b.now }
    ensures counts { result.len ≡ length (script_lines b.now mem.old) }
    ensures prints { lines.new
        ≡ splice lines.old 0 (script_lines b.now mem.old) }
    ensures few { result.len ≤ 24 * length b.now }
{
    let mut ran = Ran { at: 0, len: 0 };
    loop {
        let Next::Record(r) = next_at(b, ran.at) else {
            return ran;
        };
        ran.len = run(mem, r, lines, ran.len);
        ran.at += size_at(b, ran.at);
    }
}
