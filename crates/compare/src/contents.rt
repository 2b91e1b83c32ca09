// The contents and the symbols of frames, as the second program writes them.
ghost use Rattle.std.specs.Prelude.{◌≤◌};

use super::bytes::read_bits;
use super::input::{digit, is_next, next_character, read_rest};
use words::bits::put_number;

// ---- contents

// The counts of a frame's fields, and its page bits.
#[derive(Clone, Copy)]
pub(crate) struct Contents {
    pub(crate) counts: [i64; 33],
    pub(crate) page: [u8; 250],
}

impl Contents {
    pub(crate) fn zeros() -> Contents {
        Contents {
            counts: [0; 33],
            page: [0; 250],
        }
    }

    // Reads 33 counts and the space behind each, then 250 page bits, of which a byte 2 may be one, and theirs, and says whether they are
    // such.
    pub(crate) fn read(&mut self) -> bool {
        let are_counts = read_counts(&mut self.counts);
        let are_bits = read_bits(&mut self.page, 3, b' ');
        are_counts && are_bits
    }
}

// Reads as many counts as are lent, with the space behind each, up to the first that is none, and says whether there is none.
pub(crate) fn read_counts(counts: &mut [i64]) -> bool {
    for count in counts.iter_mut() {
        match read_count() {
            Some(n) => *count = n,
            None => return false,
        }
    }
    true
}

// The same of so many counts, which are none where one of them is.
pub(crate) fn read_numbers<const N: usize>() -> Option<[i64; N]>
    requires { N ≤ 34 }
{
    let mut counts = [0i64; N];
    if read_counts(&mut counts) {
        Some(counts)
    } else {
        None
    }
}

// A count's first character is a minus or its first digit.
fn read_count() -> Option<i64> {
    let first = next_character()?;
    if first == b'-' {
        below_zero(read_rest(next_character()?, b' ')?)
    } else {
        i64::try_from(read_rest(first, b' ')?).ok()
    }
}

// -n, where n is not 0.
fn below_zero(n: usize) -> Option<i64> {
    let above = i64::try_from(n.checked_sub(1)?).ok()?;
    Some(-1 - above)
}

// ---- symbols

// Reads 1800 symbols, four to a digit, and the line's end, and says whether they are such.
pub(crate) fn read_symbols(frame: &mut [u8; 1800]) -> bool {
    let mut text = [0u8; 450];
    io::read_full(0, &mut text);
    let are_symbols = unpack(&text, frame);
    let is_end = is_next(b'\n');
    are_symbols && is_end
}

// Up to the first character that is no digit.
fn unpack(text: &[u8; 450], frame: &mut [u8; 1800]) -> bool {
    for (symbols, &character) in frame.chunks_exact_mut(4).zip(text.iter()) {
        let Some(four) = digit(character, 16) else {
            return false;
        };
        // four bits hold a digit of base 16
        let _ = put_number(symbols, 0, 4, u64::from(four));
    }
    true
}
