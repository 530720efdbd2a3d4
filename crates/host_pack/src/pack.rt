// Answers to one number.
ghost use Rattle.std.specs.Prelude.{◌≡◌};
ghost use Rattle.lta_spec.specs.Answer.{refusal, numbered_as};
ghost use Rattle.host_pack.specs.Boundary.{packed};

use lta_spec::Refusal;

// A refusal as one number.
pub fn refused(r: Refusal) -> u64
    ensures { result ≡ packed (refusal r) }
{
    u64::from(r) << 32
}

// An answer as one number.
pub fn pack(answer: Result<u64, Refusal>) -> u64
    ensures { result ≡ packed (numbered_as answer) }
{
    answer.unwrap_or_else(refused)
}
