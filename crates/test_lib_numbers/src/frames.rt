// The frame that is due of a dump, an emission or a pick, word by word, before the machine takes the call.
use test_lib_machine::cell::Cell;
use test_lib_machine::machine::Machine;
use test_lib_machine::sets::{Place, Set};
use test_lib_rules::call::{Bin, Call, Op};
use test_lib_rules::frame_words::Header;
use test_lib_rules::history::Quantity;
use test_lib_tools::bytes::{Kind, PEAK, word};
use test_lib_tools::words::low_word;

// Lag word j: I and Q of each lag of a set.
fn lag_word(cell: &Cell, set: Set, j: usize) -> u64 {
    let quantity = if j % 2 == 0 {
        Quantity::InPhase
    } else {
        Quantity::Quadrature
    };
    cell.sum(set, (j / 2) as u64, quantity)
}

// Word j of a frame of a set: the header, with its ticks, both counts and DATA_BIAS; behind it the lags.
fn due(cell: &Cell, header: Header, set: Set, j: usize) -> u64 {
    let first = header.kind.heads();
    if j >= first {
        return lag_word(cell, set, j - first);
    }
    match j {
        2 => cell.sets.members(set),
        3 => cell.sum(set, cell.shape.lags / 2, Quantity::Valid),
        4 => cell.sum(set, 0, Quantity::Valid),
        7 => cell.sets.members(set).wrapping_mul(PEAK),
        _ => header.word(cell.shape, j),
    }
}

// Are mark, words and sum of a frame as they are due, with nothing written behind it?
fn is_frame(cell: &Cell, header: Header, place: Place, out: &[u8]) -> bool {
    let n = cell.shape.lags;
    let words = (0..header.kind.last(n)).all(|j| word(out, j)
        == low_word(due(cell, header, Set::Of(place), j)));
    words && header.kind.is_framed(out, n)
}

// A speed frame: "W1 carries the bin of the dump's label; W5 and W6 use the integration's stamp".
fn is_speed_frame(cell: &Cell, c: u64, bin: Bin, out: &[u8]) -> bool {
    let header = Header {
        kind: Kind::Speed,
        cell: c,
        bin,
        stamp: cell.open_stamp,
    };
    is_frame(cell, header, Place::Open, out)
}

// The frame of a bin.
fn is_bin_frame(cell: &Cell, c: u64, bin: Bin, out: &[u8]) -> bool {
    let q = bin.place(cell.shape.bins);
    let header = Header {
        kind: Kind::Binned,
        cell: c,
        bin,
        stamp: cell.slot(q).stamp,
    };
    is_frame(cell, header, Place::Bin(q), out)
}

// Is the buffer the frame that an accepted call is about to write?
pub fn is_due(m: &Machine, k: Call, out: &[u8]) -> bool {
    let Some(cell) = m.cell(k.cell) else {
        return false;
    };
    match k.op {
        Op::Dump {
            command,
            bank,
            phase,
        } => {
            let bin = cell.dump_bin(command, phase);
            is_speed_frame(cell, k.cell, Bin { bank, bin }, out)
        }
        Op::Emit(bin) | Op::Pick(Some(bin)) => is_bin_frame(cell, k.cell, bin, out),
        _ => false,
    }
}
