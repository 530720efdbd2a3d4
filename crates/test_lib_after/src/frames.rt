// The frame of a bin or of Open, from its row in work memory: ticks, edge and centre count, sums.
use crate::changes::Dump;
use lta_spec::Shape;
use test_lib_memory::cells::{Row, Run};
use test_lib_memory::map::{Field, Set};
use test_lib_rules::call::{Bin, Call, Op};
use test_lib_rules::frame_words::Header;
use test_lib_tools::bytes::{Kind, PEAK, word};
use test_lib_tools::words::low_word;

// The words of a frame: header and row.
#[derive(Clone, Copy)]
struct Frame<'a> {
    header: Header,
    row: Row<'a>,
}

impl<'a> Frame<'a> {
    // The frame of a speed dump is of Open, with the bin of the dump's label; that of an emission or a pick is of the
    // bin.
    fn of(old: &'a Run<'a>, k: Call, kind: Kind) -> Option<Frame<'a>> {
        let cell = old.cell(k.cell);
        let (set, bin, stamp) = match k.op {
            Op::Dump {
                command,
                bank,
                phase,
            } => {
                let bin = Dump {
                    cell,
                    command,
                    bank,
                    phase,
                }
                .bin();
                (Set::Open, Bin { bank, bin }, cell.field(Field::OpenStamp))
            }
            Op::Emit(bin) | Op::Pick(Some(bin)) => {
                let q = old.layout.number(bin);
                (Set::Bin(q), bin, cell.stamp(q))
            }
            _ => return None,
        };
        let header = Header {
            kind,
            cell: k.cell,
            bin,
            stamp,
        };
        Some(Frame {
            header,
            row: cell.row(set),
        })
    }

    // Word j from DATA_BIAS on, 128 × ticks; behind the header words a stored sum, less that.
    fn biased_word(self, j: usize) -> u64 {
        let bias = self.row.ticks().wrapping_mul(PEAK);
        match j.checked_sub(self.header.kind.heads()) {
            None => bias,
            Some(i) => self.row.sum(i as u64).wrapping_sub(bias),
        }
    }

    // Word j: ticks and both counts; DATA_BIAS and the lags behind the header.
    fn word(self, s: Shape, j: usize) -> u64 {
        match j {
            2 => self.row.ticks(),
            3 => self.row.centre(),
            4 => self.row.edge(),
            0..=6 => self.header.word(s, j),
            _ => self.biased_word(j),
        }
    }

    // Mark, words and sum; past the frame nothing is written.
    fn is_right(self, s: Shape, out: &[u8]) -> bool {
        let kind = self.header.kind;
        let words = (0..kind.last(s.lags)).all(|j| word(out, j) == low_word(self.word(s, j)));
        words && kind.is_framed(out, s.lags)
    }
}

// Is the buffer the frame that the call writes, of this kind?
pub fn is_frame<'a>(old: &'a Run<'a>, k: Call, kind: Kind, out: &[u8]) -> bool {
    Frame::of(old, k, kind).is_some_and(|frame| frame.is_right(old.shape, out))
}
