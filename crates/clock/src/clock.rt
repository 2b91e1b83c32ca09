// The clock terms: three counts as one record of floating numbers, each an exact product with a power of two, and back.
ghost use Rattle.std.specs.Prelude.{◌≡◌, ◌+◌, ◌^◌, ◌<◌, ◌≤◌, false};
ghost use Rattle.std.specs.Float.{fin};
ghost use Rattle.std.specs.Float.Ieee.{minus};
ghost use Rattle.std.specs.Int.Signed.{mag};
ghost use Rattle.words.specs.Refusal.{FIELD_2, given_by, done_if};
ghost use Rattle.fields.specs.Counts.{in_range};
ghost use Rattle.clock.specs.Clock.{signed_field, term_of, count_in, is_count, the_count, clock_taken, clock_counts};

use words::bits::magnitude;
use words::refusal::{Refusal, Rule};

// A clock term: its width in bits, its first bit, and its step, which is 2^-step. The width and the step are such that floating
// numbers hold its terms exactly.
#[derive(Clone, Copy)]
struct Term {
    width: u64,
    bit: usize,
    step: u64,
    ghost has_digits: { 0 < width },
    ghost few_digits: { width ≤ 53 },
    ghost small_step: { step ≤ 1000 },
}

const AF0: Term = Term {
    width: 26,
    bit: 471,
    step: 35,
};

const AF1: Term = Term {
    width: 20,
    bit: 497,
    step: 48,
};

const AF2: Term = Term {
    width: 10,
    bit: 517,
    step: 60,
};

// 2^63, behind the largest i64.
const I64_END: f64 = 9223372036854775808.0;

// The clock terms.
#[derive(Clone, Copy, PartialEq)]
pub struct Clock {
    pub af0: f64,
    pub af1: f64,
    pub af2: f64,
}

// The counts whose clock terms they are.
#[derive(Clone, Copy, PartialEq, Eq)]
pub struct ClockCounts {
    pub af0: i64,
    pub af1: i64,
    pub af2: i64,
}

// 2^(e - 1023), made of its bits.
fn power(e: u64) -> f64
    requires { (0 < e) × (e < 2047) }
    ensures { result ≡ fin false 1 (minus (e + 51) 1074) }
{
    f64::from_bits(e << 52)
}

impl Term {
    // The count is in a signed field of its width.
    fn has_width(self, count: i64) -> bool
        ensures { result ≡ in_range (signed_field self.width) count }
    {
        magnitude(count) < 1u64 << (self.width - 1)
    }

    // The count times its step.
    fn term_of(self, count: i64) -> f64
        requires { mag count < 2 ^ 52 }
        ensures { result ≡ term_of self.step count }
    {
        std::num::nearest_i64_to_f64(count) * power(1023 - self.step)
    }

    // The count, in a signed field of its width, whose product with its step this is.
    // Put into its caller, as `take_back` is: there the width and the step are constants.
    #[inline(always)]
    fn count_of(self, x: f64) -> Option<i64>
        ensures { result ≡ count_in self.step (signed_field self.width) x }
    {
        let y = x * power(1023 + self.step);
        if y >= -I64_END && y < I64_END {
            let n = std::num::truncating_f64_to_i64(y);
            if self.has_width(n) && f64::to_bits(self.term_of(n)) == f64::to_bits(x) {
                return Some(n);
            }
        }
        None
    }

    // The term of a count; refused 6 at the field's first bit unless the count is in the field's width.
    fn hand_out(self, count: i64) -> Result<f64, Refusal>
        ensures { result ≡ given_by (done_if (in_range (signed_field self.width) count) FIELD_2 self.bit) (term_of self.step count) }
    {
        if !self.has_width(count) {
            return Err(Rule::Field2.at(self.bit));
        }
        Ok(self.term_of(count))
    }

    // The count whose term this is; refused 6 at the field's first bit if no count in the field's width has it.
    #[inline(always)]
    fn take_back(self, x: f64) -> Result<i64, Refusal>
        ensures { result ≡ given_by (done_if (is_count (count_in self.step (signed_field self.width) x)) FIELD_2 self.bit)
            (the_count (count_in self.step (signed_field self.width) x)) }
    {
        self.count_of(x).ok_or(Rule::Field2.at(self.bit))
    }
}

// The clock terms of three counts: af0 times 2^-35, af1 times 2^-48, af2 times 2^-60; refused 6 at the first bit of the first field whose
// width a count is not in.
pub fn clock_of(af0: i64, af1: i64, af2: i64) -> Result<Clock, Refusal>
    ensures { result ≡ clock_taken af0 af1 af2 }
{
    Ok(Clock {
        af0: AF0.hand_out(af0)?,
        af1: AF1.hand_out(af1)?,
        af2: AF2.hand_out(af2)?,
    })
}

// The counts whose clock terms these are; refused 6 at the first bit of the first field none of whose counts has the term given.
pub fn counts_of(clock: Clock) -> Result<ClockCounts, Refusal>
    ensures { result ≡ clock_counts clock }
{
    Ok(ClockCounts {
        af0: AF0.take_back(clock.af0)?,
        af1: AF1.take_back(clock.af1)?,
        af2: AF2.take_back(clock.af2)?,
    })
}
