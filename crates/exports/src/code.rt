// The number that a call returns.
ghost use Rattle.std.specs.Prelude.{◌≡◌};
ghost use Rattle.exports.specs.Code.{refusal_code};

use words::refusal::Refusal;

// One more than the largest place or number that the low 32 bits hold.
pub(crate) const HALF: u64 = 4294967296;

// The refusal's number in the high 32 bits, its place in the low ones: the C interface has one number for both.
pub(crate) fn refusal_code(refusal: Refusal) -> u64
    ensures { result ≡ refusal_code refusal.number refusal.place }
{
    u64::from(refusal.number) * HALF + refusal.place as u64 % HALF
}
