// The cases of clock terms: counts handed out, and terms taken back.
use super::contents::read_numbers;
use super::input::read_digits;
use super::told::{DONE, Told, read_told, told_or_zeros};
use clock::clock::{Clock, ClockCounts, clock_of, counts_of};

// A minus sign's bit, and the bits of plus infinity. More, but for the sign, are those of a NaN.
const SIGN: u64 = 1 << 63;

const INFINITE: u64 = 0x7ff0_0000_0000_0000;

// The bits of three floating numbers.
#[derive(Clone, Copy, PartialEq, Eq)]
struct Terms {
    af0: u64,
    af1: u64,
    af2: u64,
}

const ZERO_COUNTS: ClockCounts = ClockCounts {
    af0: 0,
    af1: 0,
    af2: 0,
};

// The bits of plus zeros.
const ZERO_TERMS: Terms = Terms {
    af0: 0,
    af1: 0,
    af2: 0,
};

// ---- reading

fn read_clock_counts() -> Option<ClockCounts> {
    let [af0, af1, af2] = read_numbers::<3>()?;
    Some(ClockCounts { af0, af1, af2 })
}

fn read_terms() -> Option<Terms> {
    let af0 = read_term();
    let af1 = read_term();
    let af2 = read_term();
    Some(Terms {
        af0: af0?,
        af1: af1?,
        af2: af2?,
    })
}

// Reads sixteen digits and the space behind them.
fn read_term() -> Option<u64> {
    u64::try_from(read_digits(16, 16, b' ')?).ok()
}

// ---- floating numbers

// The bits of a term. A NaN has none that are told.
fn bits_of(term: f64) -> Option<u64> {
    if term.is_nan() {
        None
    } else {
        Some(term.to_bits())
    }
}

fn terms_of(clock: Clock) -> Option<Terms> {
    Some(Terms {
        af0: bits_of(clock.af0)?,
        af1: bits_of(clock.af1)?,
        af2: bits_of(clock.af2)?,
    })
}

// The floating number of these bits; every NaN is the same.
fn number_of(bits: u64) -> f64 {
    if bits % SIGN > INFINITE {
        return f64::NAN;
    }
    f64::from_bits(bits)
}

fn clock_with(terms: Terms) -> Clock {
    Clock {
        af0: number_of(terms.af0),
        af1: number_of(terms.af1),
        af2: number_of(terms.af2),
    }
}

// ---- the cases

// Unless it is refused, both ways.
pub(crate) fn clock_handed_agrees() -> bool {
    let counts = read_clock_counts();
    let terms = read_terms();
    let told = read_told(b'\n');
    let (Some(counts), Some(terms)) = (counts, terms) else {
        return false;
    };
    handing_agrees(counts, terms, told) && (told != DONE || taking_agrees(terms, counts, told))
}

pub(crate) fn clock_taken_agrees() -> bool {
    let terms = read_terms();
    let counts = read_clock_counts();
    let told = read_told(b'\n');
    let (Some(counts), Some(terms)) = (counts, terms) else {
        return false;
    };
    taking_agrees(terms, counts, told) && (told != DONE || handing_agrees(counts, terms, told))
}

fn handing_agrees(counts: ClockCounts, terms: Terms, told: Told) -> bool {
    let handed = clock_of(counts.af0, counts.af1, counts.af2).map(terms_of);
    told_or_zeros(told, Some(terms), Some(ZERO_TERMS)) == Some(handed)
}

fn taking_agrees(terms: Terms, counts: ClockCounts, told: Told) -> bool {
    let taken = counts_of(clock_with(terms));
    told_or_zeros(told, counts, ZERO_COUNTS) == Some(taken)
}
