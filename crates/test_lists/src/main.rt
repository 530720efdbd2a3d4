// Holds the calls on a run to the papers, by long lists of calls: every answer, frame, reading and page, and all words
// of work memory, are compared with the plain machine of test_lib_machine, which knows sets of tick numbers and the
// sampler's bytes alone.
#![tactic(auto)]

use test_lib_calls::ask;
use test_lib_lists::draw::List;
use test_lib_machine::machine::Machine;
use test_lib_rules::call::needed;
use test_lib_step::record::{Group, Record};
use test_lib_step::step::{compare, step};
use test_lib_tools::report::Tally;
use test_lib_tools::words::mix;

// The shapes of the lists, from C to Z. In list 9, M is above B, and no data bin can be named.
const SHAPES: [[u64; 7]; 11] = [
    [1, 2, 1, 1, 0, 1, 0],
    [2, 2, 2, 1, 0, 4, 0],
    [2, 4, 5, 2, 3, 256_000_000, 2_147_483_647],
    [3, 6, 5, 1, 255, 4, 7],
    [4, 16, 2, 2, 254, 1, 2_147_483_647],
    [16, 2, 6, 3, 17, 1000, 5],
    [16, 128, 1, 1, 0, 256_000_000, 0],
    [1, 128, 5, 4, 100, 1, 99],
    [3, 16, 5, 5, 1, 7, 1],
    [4, 4, 2, 3, 0, 4, 0],
    [2, 2, 2, 1, 9, 4, 0],
];

// The steps of list l before any refusal. List 10 starts with so many that cell 0 is held off.
fn first_steps(l: u64) -> u64 {
    if l == 10 { 524_340 } else { 0 }
}

// Words of no meaning, which setup clears.
fn fill(mem: &mut [u64]) {
    for (i, word) in mem.iter_mut().enumerate() {
        *word = mix(i as u64, 7);
    }
}

// The steps from a up to e.
fn steps(mem: &mut [u64], m: &mut Machine, record: &mut Record, list: List, a: u64, e: u64) {
    for i in a..e {
        step(mem, m, record, list.lent_shape(i), list.call(i));
    }
}

// The parts of a list: their steps, and behind each the words of memory. The first has the steps before any refusal.
fn run(mem: &mut [u64], m: &mut Machine, record: &mut Record, list: List) {
    let mut a = 0;
    for part in 0..16 {
        let e = list.first_steps.saturating_add(250 * part);
        steps(mem, m, record, list, a, e);
        compare(mem, m, record);
        a = e;
    }
}

fn rows(record: &mut Record, list: List) {
    let s = list.shape();
    let mut mem = [0; 43800];
    fill(&mut mem);
    let is_fresh = ask::setup(s, &mut mem, needed(s)) == Some(Ok(0));
    record.row(Group::Setups, is_fresh, false);
    let mut m = Machine::new(s, list.seed);
    run(&mut mem, &mut m, record, list);
}

fn main(rt: HostRuntime) {
    let mut record = Record::default();
    let mut all = Tally::default();
    for (l, values) in (0..).zip(SHAPES) {
        let list = List {
            values,
            seed: mix(l, 1),
            first_steps: first_steps(l),
        };
        record.list = Tally::default();
        rows(&mut record, list);
        let [c, n, b, m, s, ..] = values;
        let _ = println!(&rt;
            "C = {c}, N = {n}, B = {b}, M = {m}, S = {s} {}",
            record.list
        );
        all.include(&record.list);
    }
    record.show(&rt);
    all.show_verdict(&rt);
}
