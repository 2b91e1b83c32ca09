// The function `read_fields` of `fields::subframe2`.
ghost use Rattle.std.specs.Prelude.{◌<◌};

use fields::subframe2::{ITOW, TOE, read_fields};
use show::{done, expected, refused};
use words::bits::put_number;
use words::refusal::refuse;

// A refusal where 33 counts would be given. The texts are as they were printed when a function of this name put zeros beside it.
pub(crate) fn no_fields_at_all() {
    refused(
        b"no_fields(0, 0) is that refusal, with zeros",
        &refuse::<[i64; 33]>(0, 0),
        0,
        0,
    );
    refused(
        b"no_fields(255, last) is that refusal, with zeros",
        &refuse::<[i64; 33]>(255, usize::MAX),
        255,
        usize::MAX,
    );
}

pub(crate) fn lengths() {
    let garbage = [255u8; 577];
    refused(
        b"read_fields of nothing is refused 1 at 0, with zeros",
        &read_fields(&garbage[0..0]),
        1,
        0,
    );
    refused(b"  of 575 bytes too", &read_fields(&garbage[0..575]), 1, 0);
    refused(b"  of 577 too", &read_fields(&garbage), 1, 0);
    refused(
        b"  of 576 bytes of garbage 2 at 0",
        &read_fields(&garbage[0..576]),
        2,
        0,
    );
}

pub(crate) fn no_bits() {
    let ones = [1u8; 576];
    let mut bits = [0u8; 576];
    refused(
        b"read_fields of 576 ones is refused 6 at 14",
        &read_fields(&ones),
        6,
        14,
    );
    bits[575] = 2;
    refused(
        b"  with a last byte 2, 2 at 575",
        &read_fields(&bits),
        2,
        575,
    );
}

// Zeros, with a number in its place.
fn with_number(text: &[u8], at: usize, width: usize, number: u64) -> [u8; 576] {
    let mut bits = [0u8; 576];
    done(text, &put_number(&mut bits, at, width, number));
    bits
}

// Zeros with one other count.
// frames_trial has it too, known the like: one for all would be public in `show`, with a contract and wrong programs of its own, for five
// lines.
pub(crate) fn with_count(k: usize, count: i64) -> [i64; 33]
    requires { k < 33 }
{
    let mut counts = [0i64; 33];
    counts[k] = count;
    counts
}

fn count_read(text: &[u8], bits: &[u8], k: usize, count: i64)
    requires { k < 33 }
{
    expected(text, read_fields(bits) == Ok(with_count(k, count)));
}

pub(crate) fn known() {
    count_read(
        b"  read_fields takes it",
        &with_number(b"itow 83 is put", 13, 8, 83),
        ITOW,
        83,
    );
    refused(
        b"  read_fields refuses it, 6 at 14",
        &read_fields(&with_number(b"itow 84 is put", 13, 8, 84)),
        6,
        14,
    );
    count_read(
        b"  read_fields takes it",
        &with_number(b"toe 2015 is put", 38, 11, 2015),
        TOE,
        2015,
    );
    refused(
        b"  read_fields refuses it, 6 at 39",
        &read_fields(&with_number(b"toe 2016 is put", 38, 11, 2016)),
        6,
        39,
    );
}

pub(crate) fn reserved() {
    refused(
        b"  read_fields refuses it, 6 at 567",
        &read_fields(&with_number(b"bit 567 is put", 566, 1, 1)),
        6,
        567,
    );
    refused(
        b"  read_fields refuses it, 6 at 567",
        &read_fields(&with_number(b"bit 576 is put", 575, 1, 1)),
        6,
        567,
    );
    count_read(
        b"  read_fields takes it as 1",
        &with_number(b"bit 566 is put", 565, 1, 1),
        32,
        1,
    );
    count_read(
        b"  read_fields takes it as -4096",
        &with_number(b"bit 527 is put", 526, 1, 1),
        29,
        -4096,
    );
}
