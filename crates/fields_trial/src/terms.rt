// The function `counts_of` of `clock::clock`.
use clock::clock::{Clock, ClockCounts, counts_of};
use show::{expected, refused};
use words::refusal::Refusal;

// A step of each term is one divided by 2^35, 2^48, 2^60.
pub(crate) const STEPS0: f64 = 34359738368.0;

pub(crate) const STEPS1: f64 = 281474976710656.0;

pub(crate) const STEPS2: f64 = 1152921504606846976.0;

fn of(af0: f64, af1: f64, af2: f64) -> Result<ClockCounts, Refusal> {
    counts_of(Clock { af0, af1, af2 })
}

fn counts(text: &[u8], taken: Result<ClockCounts, Refusal>, af0: i64, af1: i64, af2: i64) {
    expected(text, taken == Ok(ClockCounts { af0, af1, af2 }));
}

pub(crate) fn known() {
    counts(
        b"counts_of a step of each: 1, 1 and 1",
        of(1.0 / STEPS0, 1.0 / STEPS1, 1.0 / STEPS2),
        1,
        1,
        1,
    );
    counts(
        b"counts_of plus zeros: 0, 0 and 0",
        of(0.0, 0.0, 0.0),
        0,
        0,
        0,
    );
    counts(
        b"counts_of the least terms: the least counts",
        of(-33554432.0 / STEPS0, -524288.0 / STEPS1, -512.0 / STEPS2),
        -33554432,
        -524288,
        -512,
    );
    counts(
        b"counts_of the most: the most",
        of(33554431.0 / STEPS0, 524287.0 / STEPS1, 511.0 / STEPS2),
        33554431,
        524287,
        511,
    );
}

// Refused in each place, behind zeros.
fn refused_in_turn(text: &[u8], x: f64) {
    refused(text, &of(x, x, x), 6, 471);
    refused(b"  and 6 at 497 for af1", &of(0.0, x, x), 6, 497);
    refused(b"  and 6 at 517 for af2", &of(0.0, 0.0, x), 6, 517);
}

pub(crate) fn no_numbers() {
    refused_in_turn(
        b"counts_of what is no number is refused 6 at 471, with zeros",
        f64::NAN,
    );
    refused_in_turn(b"counts_of plus infinity is", f64::INFINITY);
    refused_in_turn(b"counts_of minus infinity is", f64::NEG_INFINITY);
    refused_in_turn(b"counts_of minus zero is", -0.0);
}

// Half of a step of af2, which is the least, is a part of each one's step.
pub(crate) fn no_counts() {
    refused_in_turn(b"counts_of the least number above zero is", 5e-324);
    refused_in_turn(b"counts_of half of 2^-60 is", 0.5 / STEPS2);
    refused_in_turn(b"counts_of the largest number is", f64::MAX);
    refused_in_turn(
        b"counts_of 2^-10, too large for each, is",
        33554432.0 / STEPS0,
    );
}

pub(crate) fn each_by_itself() {
    refused(
        b"half a step of af0 is refused 6 at 471",
        &of(0.5 / STEPS0, 0.0, 0.0),
        6,
        471,
    );
    refused(
        b"a step less than the least too",
        &of(-33554433.0 / STEPS0, 0.0, 0.0),
        6,
        471,
    );
    refused(
        b"half a step of af1 6 at 497",
        &of(0.0, 0.5 / STEPS1, 0.0),
        6,
        497,
    );
    refused(
        b"524288 steps too",
        &of(0.0, 524288.0 / STEPS1, 0.0),
        6,
        497,
    );
    refused(
        b"a step and a half of af2 6 at 517",
        &of(0.0, 0.0, 1.5 / STEPS2),
        6,
        517,
    );
    refused(b"512 steps too", &of(0.0, 0.0, 512.0 / STEPS2), 6, 517);
}
