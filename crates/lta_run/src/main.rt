// The script program of document 01, on standard input.
#![tactic(auto)]

use script::input::run_input;
use script::shape;

fn main(rt: HostRuntime) {
    let mut mem = [0u64; 108];
    let Ok(()) = lta::setup(shape(), &mut mem) else {
        return;
    };
    let mut block = [0u8; 4096];
    run_input(&mut rt.stdin(), &mut mem, &mut block);
}
