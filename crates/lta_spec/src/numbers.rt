// Refusals and losses by document 01's numbers, and a refusal where its test fails.
ghost use Rattle.std.specs.Prelude.{◌≡◌, cond, Ok, Err};
ghost use Rattle.lta_spec.specs.Refusals.{refusal_number, loss_number};
ghost use Rattle.lta_spec.specs.Answer.{moved_number};

use crate::{Loss, Moved, Refusal};

impl Refusal {
    // This refusal, unless its test passes.
    pub fn unless(self, passes: bool) -> Result<(), Refusal>
        ensures { result ≡ cond passes (Ok tt) (Err self) }
    {
        if passes { Ok(()) } else { Err(self) }
    }
}

impl From<Refusal> for u32 {
    ghost from_gives = { λ r n. n ≡ refusal_number r };

    fn from(r: Refusal) -> u32 {
        match r {
            Refusal::BadShape => 1,
            Refusal::WrongMemory => 2,
            Refusal::WrongSamples => 3,
            Refusal::RunFull => 4,
            Refusal::NoCell => 5,
            Refusal::BadCommand => 6,
            Refusal::NoBin => 7,
            Refusal::NothingHeld => 8,
            Refusal::NotReady => 9,
            Refusal::ShortBuffer => 10,
            Refusal::Damaged => 11,
            Refusal::NoLag => 12,
            Refusal::WrongLength => 13,
            Refusal::WrongMark => 14,
            Refusal::WrongSum => 15,
            Refusal::BadField => 16,
            Refusal::BadRecord => 17,
            Refusal::WrongBias => 18,
            Refusal::BadValidity => 19,
            Refusal::NothingReady => 20,
        }
    }
}

impl From<Refusal> for u64 {
    ghost from_gives = { λ r n. n ≡ refusal_number r };

    fn from(r: Refusal) -> u64 {
        u32::from(r) as u64
    }
}

impl From<Loss> for u64 {
    ghost from_gives = { λ l n. n ≡ loss_number l };

    fn from(l: Loss) -> u64 {
        match l {
            Loss::Ordered => 1,
            Loss::Overrun => 2,
            Loss::Full => 3,
            Loss::Replaced => 4,
            Loss::Wide => 5,
            Loss::Holdoff => 6,
        }
    }
}

// What a dump or an integration answers: 0 if kept, the number of the loss, 7 for command 111, or a length.
impl From<Moved> for u64 {
    ghost from_gives = { λ m n. n ≡ moved_number m };

    fn from(m: Moved) -> u64 {
        match m {
            Moved::Kept => 0,
            Moved::Lost(l) => l.into(),
            Moved::Idle => 7,
            Moved::Sent(length) => length,
        }
    }
}
