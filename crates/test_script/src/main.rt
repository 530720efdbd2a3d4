// Scripts held in memory, each on a fresh run: one script cut at every byte, marks that are unknown, every refusal and
// every loss that a script can meet, sums as great as ticks can make them, and frames whose words tell signs, banks and
// data bins apart.
#![tactic(auto)]

use lta_spec::Refusal;
use script::input::run_bytes;
use script::shape;

// A tick, a last dump, its integration and its frame.
const WHOLE: &[u8] = b"TK\x02\x03\x03DP\x00\x02\x00\x00\x00IN\x00EM\x00\x00\x00\x00";

// Unknown marks: they stop a script, whatever stands behind them. The last two are a byte more than a dump has, and a
// byte less than a tick has, which takes the next record's first for its validity byte.
const MARKS: &[&[u8]] = &[
    b"tk\x02\x03\x03TK\x02\x03\x03",
    b"KT\x02\x03\x03TK\x02\x03\x03",
    b"TK\x02\x03\x03TDP",
    b"IN\x00\x00IN\x00",
    b"\x00\x00",
    b"DE\x00\x00\x00\x00\x00",
    b"DP\x00\x02\x00\x00\x00\x00IN\x00",
    b"TK\x02\x03TK\x02\x03\x03",
];

// A letter alone, at the front and behind a record: it is a cut record and no end.
const LONE_LETTERS: &[&[u8]] = &[b"T", b"IN\x00E", b"EM\x00\x00\x00\x00I"];

// Every validity byte that is right, and bits that none has, each alone and all together; then document 01's example,
// "with validity bytes 03, 03 and 02", and ticks that 19 refuses among its own.
const VALIDITY: &[&[u8]] = &[
    b"TK\x01\x02\x00TK\x03\x04\x01TK\x05\x06\x02TK\x07\x01\x03DP\x00\x03\x00\x00\x00",
    b"TK\x02\x03\x04TK\x02\x03\x09TK\x02\x03\x12TK\x02\x03\x23TK\x02\x03\x40TK\x02\x03\x83TK\x02\x03\xff",
    b"TK\x02\x03\x03TK\x07\x07\x07TK\x01\x0f\x03TK\x07\x07\x80TK\x08\x02\x02TK\x07\x07\xff\
        DP\x00\x02\x00\x00\x00IN\x00EM\x00\x00\x00\x00IN\x00",
];

// Ticks of -8 whose phases are 0 apart, then 8, then 4, then 12: each adds 128, then -128, to I and then to Q.
const PEAKS: &[&[u8]] = &[
    b"TK\x08\x08\x03DP\x00\x04\x00\x00\x00TK\x08\x08\x03TK\x08\x08\x03DP\x00\x03\x00\x00\x00\
        TK\x88\x08\x03DP\x00\x04\x00\x00\x00TK\x88\x08\x03TK\x88\x08\x03DP\x00\x03\x00\x00\x00",
    b"TK\x48\x08\x03DP\x00\x04\x00\x00\x00TK\x48\x08\x03TK\x48\x08\x03DP\x00\x03\x00\x00\x00\
        TK\xc8\x08\x03DP\x00\x04\x00\x00\x00TK\xc8\x08\x03TK\xc8\x08\x03DP\x00\x03\x00\x00\x00",
];

// Dumps that are refused: 5, then 6, then 7, each also where the next applies.
const DUMPS: &[&[u8]] = &[
    b"DP\x01\x00\x00\x00\x00DP\x01\x03\x02\x02\x00DP\xff\x07\x00\x00\x00",
    b"DP\x00\x05\x00\x00\x00DP\x00\x06\x00\x00\x00DP\x00\x08\x02\x00\x00",
    b"DP\x00\x00\x02\x00\x00DP\x00\x04\x02\x00\x00DP\x00\x07\x00\x02\x00DP\x00\x01\x00\x00\x01",
    b"DP\x00\x02\x00\x02\x00DP\x00\x02\x01\x01\x00DP\x00\x02\xff\xff\xff",
];

// Speed dumps print their frame: document 01's example with one in place of its dump; one with negative lags while a
// tick is held, and one of an empty set; and refused by 5 and by 7.
const SPEED_DUMPS: &[&[u8]] = &[
    b"TK\x02\x03\x03TK\x01\x0f\x03TK\x08\x02\x02DP\x00\x03\x00\x00\x00IN\x00EM\x00\x00\x00\x00IN\x00",
    b"TK\x01\x01\x03DP\x00\x01\x00\x00\x00TK\x17\x65\x03TK\x13\x62\x03TK\x05\x31\x03TK\x02\x47\x03\
        DP\x00\x03\x01\x01\x00IN\x00",
    b"DP\x00\x03\x00\x01\x00DP\x01\x03\x02\x02\x00DP\x00\x03\x02\x00\x00DP\x00\x03\x00\x02\x00",
];

// Integrations and emissions that are refused: 5, 8; 5, 7, 9.
const TAKERS: &[&[u8]] = &[
    b"IN\x01IN\x00IN\xff",
    b"EM\x01\x00\x00\x00EM\x01\x02\x02\x00EM\x00\x02\x00\x00EM\x00\x00\x02\x00EM\x00\x01\x00\x01EM\x00\x01\x01\x00",
];

// Losses 1 to 4, and a frame of an empty set and of a negative sum.
const LOSSES: &[&[u8]] = &[
    b"DP\x00\x04\x00\x00\x00DP\x00\x07\x00\x00\x00TK\x07\x09\x03DP\x00\x04\x00\x00\x00",
    b"DP\x00\x00\x00\x00\x00TK\x01\x01\x03DP\x00\x01\x00\x00\x00IN\x00IN\x00",
    b"DP\x00\x02\x01\x01\x00IN\x00DP\x00\x01\x01\x01\x00IN\x00EM\x00\x01\x01\x00EM\x00\x01\x01\x00",
    b"TK\x07\x09\x03TK\x07\x09\x03DP\x00\x00\x00\x00\x00IN\x00DP\x00\x00\x00\x00\x00IN\x00",
    b"TK\x07\x09\x03TK\x07\x09\x03TK\x78\x08\x00TK\x97\x39\x03DP\x00\x02\x00\x00\x00IN\x00\
        EM\x00\x00\x00\x00TK\x01\x01\x03",
];

// Four negative lag numbers, all different: the last Q is signed as the others, and the sum behind it is not.
const SIGNS: &[&[u8]] = &[
    b"TK\x17\x65\x03TK\x13\x62\x03TK\x05\x31\x03TK\x02\x47\x03DP\x00\x02\x00\x00\x00IN\x00EM\x00\x00\x00\x00",
];

// Bank 1 with data bin 0, then bank 0 with data bin 1: the other of the two is not Ready.
const BANKS: &[&[u8]] = &[
    b"TK\x01\x01\x03DP\x00\x02\x01\x00\x00IN\x00EM\x00\x00\x01\x00EM\x00\x01\x00\x00EM\x00\x01\x00\x00",
    b"TK\x01\x01\x03DP\x00\x02\x00\x01\x00IN\x00EM\x00\x01\x00\x00EM\x00\x00\x01\x00EM\x00\x00\x01\x00",
];

// A script on a fresh run: its text goes into a buffer, and its length is the answer.
fn play(script: &[u8], out: &mut [u8]) -> Result<u64, Refusal> {
    let mut mem = [0u64; 108];
    lta::setup(shape(), &mut mem)?;
    run_bytes(&mut mem, script, out)
}

// What a script prints, under the line that says how many bytes it has. What cannot be written is dropped.
fn show(rt: &impl Print, script: &[u8]) {
    let _ = println!(rt; "-- {}", script.len());
    let mut out = [0u8; 4096];
    let length = play(script, &mut out).unwrap_or(0) as usize;
    let _ = rt.write_all(out.get(..length).unwrap_or(&out));
}

// The whole script, cut behind each byte.
fn cuts(rt: &impl Print) {
    for end in 0..=WHOLE.len() {
        show(rt, &WHOLE[..end]);
    }
}

fn main(rt: HostRuntime) {
    cuts(&rt);
    for group in [
        MARKS,
        LONE_LETTERS,
        VALIDITY,
        PEAKS,
        DUMPS,
        SPEED_DUMPS,
        TAKERS,
        LOSSES,
        SIGNS,
        BANKS,
    ] {
        for script in group {
            show(&rt, script);
        }
    }
}
