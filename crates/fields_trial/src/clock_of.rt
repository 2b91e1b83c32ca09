// The function `clock_of` of `clock::clock`.
use super::terms::{STEPS0, STEPS1, STEPS2};
use clock::clock::{Clock, clock_of};
use show::{done, expected, refused};
use words::refusal::Refusal;

fn terms(text: &[u8], taken: Result<Clock, Refusal>, af0: f64, af1: f64, af2: f64) {
    done(text, &taken);
    expected(
        b"  and these are the terms",
        taken == Ok(Clock { af0, af1, af2 }),
    );
}

pub(crate) fn known() {
    terms(
        b"clock_of 1, 1 and 1 is done: 2^-35, 2^-48, 2^-60",
        clock_of(1, 1, 1),
        1.0 / STEPS0,
        1.0 / STEPS1,
        1.0 / STEPS2,
    );
    terms(
        b"clock_of -1, -1 and -1 is done: the same below zero",
        clock_of(-1, -1, -1),
        -1.0 / STEPS0,
        -1.0 / STEPS1,
        -1.0 / STEPS2,
    );
}

pub(crate) fn ends() {
    terms(
        b"clock_of the least counts is done",
        clock_of(-33554432, -524288, -512),
        -33554432.0 / STEPS0,
        -524288.0 / STEPS1,
        -512.0 / STEPS2,
    );
    terms(
        b"clock_of the most is done",
        clock_of(33554431, 524287, 511),
        33554431.0 / STEPS0,
        524287.0 / STEPS1,
        511.0 / STEPS2,
    );
}

// One divided by plus zero has no end above.
pub(crate) fn zeros() {
    expected(
        b"clock_of 0, 0 and 0 is done: plus zeros",
        clock_of(0, 0, 0).is_ok_and(|clock| {
            [clock.af0, clock.af1, clock.af2]
                .iter()
                .all(|&term| term == 0.0 && 1.0 / term > 0.0)
        }),
    );
}

pub(crate) fn too_large() {
    refused(
        b"af0 33554432 is refused 6 at 471, with plus zeros",
        &clock_of(33554432, 0, 0),
        6,
        471,
    );
    refused(b"af0 -33554433 too", &clock_of(-33554433, 1, 1), 6, 471);
    refused(
        b"the least of all, three times, too",
        &clock_of(i64::MIN, i64::MIN, i64::MIN),
        6,
        471,
    );
    refused(
        b"af1 524288 is refused 6 at 497",
        &clock_of(1, 524288, 512),
        6,
        497,
    );
    refused(b"af1 -524289 too", &clock_of(1, -524289, 1), 6, 497);
    refused(
        b"the most of all behind a good af0 too",
        &clock_of(1, i64::MAX, i64::MAX),
        6,
        497,
    );
    refused(b"af2 512 is refused 6 at 517", &clock_of(1, 1, 512), 6, 517);
    refused(b"af2 -513 too", &clock_of(1, 1, -513), 6, 517);
    refused(
        b"the most of all behind two good ones too",
        &clock_of(0, 0, i64::MAX),
        6,
        517,
    );
}
