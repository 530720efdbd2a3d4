// Scripts that come in blocks, each on a fresh run: standard input, of more than 1,000 records and several blocks,
// which ends in a cut record; then files, one of more than 1,000 blocks, through the smallest block that has room for
// every record.
#![tactic(auto)]

use script::input::run_input;
use script::shape;
use std::fs;
use std::io::Read;
use std::rt::Files;

// A script from a reader, through the block lent.
fn stream<R: Read>(input: &mut R, block: &mut [u8]) {
    let mut mem = [0u64; 108];
    if lta::setup(shape(), &mut mem).is_ok() {
        run_input(input, &mut mem, block);
    }
}

// A script from a file, under the line that names it; a line that cannot be written is dropped. A file that cannot be
// opened is an empty one.
fn file<R: Files + Print>(rt: &R, name: &str) {
    let _ = println!(rt; "-- {name}");
    let mut block = [0u8; 7];
    let mut nothing: &[u8] = &[];
    match fs::open(rt, name) {
        Ok(mut script) => stream(&mut script, &mut block),
        Err(_) => stream(&mut nothing, &mut block),
    }
}

fn main(rt: HostRuntime) {
    let mut block = [0u8; 4096];
    stream(&mut rt.stdin(), &mut block);
    for name in [
        "whole",
        "cut_record",
        "lone_letter",
        "unknown_mark",
        "many_blocks",
    ] {
        file(&rt, name);
    }
}
