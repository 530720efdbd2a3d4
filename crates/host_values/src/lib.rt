// Answers that hold values, to one number and to numbers in a slice that was lent.
#![tactic(auto)]

ghost use Rattle.std.specs.Prelude.{◌≡◌, ◌&&◌, ◌≤◌, leb, length};
ghost use Rattle.lta_spec.specs.Answer.{parsed_as, normalised_as, ledger_as};
ghost use Rattle.host_pack.specs.Boundary.{packed, roomed, stored, head_in, pair_in, sums_in, counts_in};

use host_pack::pack::refused;
use lta_spec::{Complex, Fields, Refusal, Sums};

// The values into the front of the slice lent.
#[tactic(auto, using(crate::proofs::Stores::stored_front))]
fn put<T: Copy>(values: &[T], slots: &mut [T])
    requires { length values.now ≤ length slots.old }
    ensures { slots.new ≡ stored slots.old 0 values.now }
{
    slots[..values.len()].copy_from_slice(values);
}

// What the reader answers, its fields into room for ten.
pub fn store_fields(read: Result<Fields, Refusal>, head: &mut [u32]) -> u64
    ensures answer { result ≡ packed (roomed (leb 10 (length head.old)) (parsed_as read)) }
    ensures leaves { head.new
        ≡ stored head.old 0 (head_in (roomed (leb 10 (length head.old)) (parsed_as read))) }
{
    match read {
        Err(r) => refused(r),
        Ok(_) if head.len() < 10 => refused(Refusal::ShortBuffer),
        Ok(f) => {
            let values = [
                f.kind, f.cell, f.block, f.bin, f.bank, f.ticks, f.centre, f.edge, f.second,
                f.offset,
            ];
            put(&values, head);
            0
        }
    }
}

// What normalising answers, its real and imaginary part into room for two.
pub fn store_pair(lag: Result<Option<Complex>, Refusal>, pair: &mut [f64]) -> u64
    ensures answer { result ≡ packed (roomed (leb 2 (length pair.old)) (normalised_as lag)) }
    ensures leaves { pair.new
        ≡ stored pair.old 0 (pair_in (roomed (leb 2 (length pair.old)) (normalised_as lag))) }
{
    match lag {
        Err(r) => refused(r),
        Ok(_) if pair.len() < 2 => refused(Refusal::ShortBuffer),
        Ok(None) => 0,
        Ok(Some(z)) => {
            put(&[z.re, z.im], pair);
            1
        }
    }
}

// What a reading answers, its numbers into room for two sums and three counts.
pub fn store_sums(reading: Result<Sums, Refusal>, sums: &mut [i64], counts: &mut [u64]) -> u64
    ensures answer { result
        ≡ packed (roomed (leb 2 (length sums.old) && leb 3 (length counts.old)) (ledger_as reading)) }
    ensures sums { sums.new
        ≡ stored sums.old 0
        (sums_in
        (roomed (leb 2 (length sums.old) && leb 3 (length counts.old)) (ledger_as reading))) }
    ensures counts { counts.new
        ≡ stored counts.old 0
        (counts_in
        (roomed (leb 2 (length sums.old) && leb 3 (length counts.old)) (ledger_as reading))) }
{
    match reading {
        Err(r) => refused(r),
        Ok(_) if sums.len() < 2 || counts.len() < 3 => refused(Refusal::ShortBuffer),
        Ok(s) => {
            put(&[s.i, s.q], sums);
            put(&[s.ticks, s.edge, s.centre], counts);
            0
        }
    }
}
