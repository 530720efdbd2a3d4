// A script to its END line: from memory into a lent buffer, or block by block from a reader to standard output. A
// record that a block ends in is moved to the front of the block, and the next bytes are read behind it.
ghost use Rattle.std.specs.Prelude.{◌≡◌, ◌*◌, ◌≤◌, leb, length, take};
ghost use Rattle.lta_spec.specs.Answer.{numbered_as};
ghost use Rattle.script_block.specs.Block.{Left};
ghost use Rattle.script.specs.Run.{script_leaves};
ghost use Rattle.script.specs.Text.{text_room, script_step, Inside};
ghost use Rattle.script.specs.Input.{ReadOn, Ended};

use crate::run_records;
use lta_spec::Refusal;
use script_block::{end_number, fill, to_front};
use script_bytes::{tail, unknown_mark};
use script_lines::put_end;
use std::io::Read;

// The file descriptor of standard output.
const STDOUT_FILENO: i32 = 1;

// The most bytes of a block that are used at a time: 24 × 2,730 bytes of lines have room in 65,536.
const USED: usize = 2730;

// Is there room for whatever some bytes print?
fn has_room(b: &[u8], out: &[u8]) -> bool
    ensures { result ≡ leb (text_room (length b.now)) (length out.now) }
{
    out.len() >= 7 && b.len() <= (out.len() - 7) / 24
}

// Runs the whole records of the first n bytes, writes their lines at once, and moves what is left to the front;
// answers how many bytes are left.
fn run_block(mem: &mut [u64], block: &mut [u8], n: usize, lines: &mut [u8]) -> usize
    requires inside { n ≤ length block.old }
    requires room { 24 * n ≤ length lines.old }
    ensures leaves { mem.new ≡ script_leaves (take n block.old) mem.old }
    ensures left { Left (take n block.old) result block.new }
{
    let ran = run_records(mem, &block[..n], lines);
    io::write_all(STDOUT_FILENO, &lines[..ran.len]);
    to_front(block, ran.at, n)
}

// Runs all records, until nothing more comes or an unknown mark stands; answers how many bytes are left at the front
// of the block. A proved loop has to end: no input has so many blocks.
fn run_blocks<R: Read>(input: &mut R, mem: &mut [u64], block: &mut [u8], lines: &mut [u8]) -> usize
    requires { 24 * length block.old ≤ length lines.old }
    ensures { ReadOn mem.old mem.new result block.new }
{
    let mut kept = 0;
    for _ in 0..u64::MAX {
        let n = fill(input, block, kept);
        if n == kept {
            break;
        }
        kept = run_block(mem, block, n, lines);
        if unknown_mark(&block[..kept]) {
            break;
        }
    }
    kept
}

// Runs a script and writes its END line; answers the number behind END.
fn run_ended<R: Read>(input: &mut R, mem: &mut [u64], block: &mut [u8], lines: &mut [u8]) -> u64
    requires { (24 * length block.old ≤ length lines.old) × (7 ≤ length lines.old) }
    ensures { Ended mem.old mem.new result }
{
    let kept = run_blocks(input, mem, block, lines);
    let number = end_number(&block[..kept]);
    let len = put_end(lines, 0, number);
    io::write_all(STDOUT_FILENO, &lines[..len]);
    number
}

// A script in memory to its END line: its text goes to the start of the buffer lent, and its length is the answer.
// Refused by 10 where the buffer has less than 24 × length + 7 bytes, which are enough for any script of that length:
// how many bytes a script prints is known only once it has run, and a refused call changes nothing.
pub fn run_bytes(mem: &mut [u64], b: &[u8], out: &mut [u8]) -> Result<u64, Refusal>
    ensures answer { numbered_as result
        ≡ (script_step b.now out.old mem.old).answer }
    ensures text { out.new
        ≡ (script_step b.now out.old mem.old).out }
    ensures leaves { mem.new
        ≡ (script_step b.now out.old mem.old).mem }
    ensures inside { Inside (numbered_as result) out.old }
{
    Refusal::ShortBuffer.unless(has_room(b, out))?;
    let ran = run_records(mem, b, out);
    let number = end_number(tail(b, ran.at));
    let len = put_end(out, ran.len, number);
    Ok(len as u64)
}

// A script from a reader to its END line, through the block lent; answers the number behind END. For each
// block of input there is one read and at most one write.
pub fn run_input<R: Read>(input: &mut R, mem: &mut [u64], block: &mut [u8]) -> u64
    ensures { Ended mem.old mem.new result }
{
    let n = block.len().min(USED);
    let mut lines = [0u8; 65536];
    run_ended(input, mem, &mut block[..n], &mut lines)
}
