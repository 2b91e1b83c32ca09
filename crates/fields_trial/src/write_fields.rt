// The function `write_fields` of `fields::subframe2`.
ghost use Rattle.std.specs.Prelude.{◌<◌, ◌≤◌};

use super::read_fields::with_count;
use fields::subframe2::{ITOW, TGD, TOE, read_fields, write_fields};
use show::{done, expected, refused, same_counts};
use words::bits::take_signed;

// Refused, and the bytes stay.
// It calls `write_fields` itself: a closure of that call at each place below would be no plainer.
fn stays<const N: usize>(text: &[u8], counts: &[i64], before: [u8; N], number: u8, place: usize)
    requires { N ≤ 577 }
{
    let mut bits = before;
    refused(text, &write_fields(counts, &mut bits), number, place);
    expected(b"  and the bytes stay", bits == before);
}

// A wrong length comes before counts that are out of range.
pub(crate) fn lengths() {
    let least = [i64::MIN; 34];
    stays(
        b"write_fields of nothing is refused 1 at 0",
        &least[0..0],
        [9; 576],
        1,
        0,
    );
    stays(b"  of 32 counts too", &least[0..32], [9; 576], 1, 0);
    stays(b"  of 34 too", &least, [9; 576], 1, 0);
    stays(
        b"write_fields into nothing is refused 1 at 0",
        &least[0..33],
        [9; 0],
        1,
        0,
    );
    stays(b"  into 575 bytes too", &least[0..33], [9; 575], 1, 0);
    stays(b"  into 577 too", &least[0..33], [9; 577], 1, 0);
}

// Zeros with one other count, over garbage.
// This and `not_written` tell of `write_fields`, as `with_count` and `not_with_count` of frames_trial of `build`: one for
// both would take a closure of the call, and be no plainer.
fn written(text: &[u8], k: usize, count: i64, at: usize, width: usize)
    requires { k < 33 }
{
    let mut bits = [255u8; 576];
    done(text, &write_fields(&with_count(k, count), &mut bits));
    expected(
        b"  and its bits are there",
        take_signed(&bits, at, width) == count,
    );
}

fn not_written(text: &[u8], k: usize, count: i64, place: usize)
    requires { k < 33 }
{
    stays(text, &with_count(k, count), [255; 576], 6, place);
}

pub(crate) fn known() {
    written(b"write_fields of itow 83 is done", ITOW, 83, 13, 8);
    not_written(b"  of itow 84 is refused 6 at 14", ITOW, 84, 14);
    written(b"  of toe 2015 is done", TOE, 2015, 37, 12);
    not_written(b"  of toe 2016 is refused 6 at 39", TOE, 2016, 39);
    written(b"  of tgd -4096 is done", TGD, -4096, 526, 13);
    written(b"  of tgd -4095 is done", TGD, -4095, 526, 13);
    not_written(b"  of tgd -4097 is refused 6 at 527", TGD, -4097, 527);
}

pub(crate) fn extreme() {
    stays(
        b"write_fields of the least of all is refused 6 at 1",
        &[i64::MIN; 33],
        [2; 576],
        6,
        1,
    );
    not_written(b"  of wn 8192 too", 0, 8192, 1);
    not_written(b"  of the most for isf 6 at 566", 32, i64::MAX, 566);
}

// -1 is in the range of signed fields alone: wn, the first field, has none.
pub(crate) fn negative() {
    not_written(b"write_fields of wn -1 is refused 6 at 1", 0, -1, 1);
    not_written(b"  of isf -1 6 at 566", 32, -1, 566);
    written(b"  of uraoe -1 is done", 4, -1, 33, 5);
    written(b"  of m0 -4294967296 is done", 10, -4294967296, 140, 33);
}

// The ends of ranges, one after the other, from wn to isf.
const ENDS: [i64; 33] = [
    8191,
    83,
    2015,
    1,
    -16,
    2015,
    33554431,
    -16777216,
    65535,
    -4194304,
    4294967295,
    8589934591,
    -4294967296,
    4294967295,
    -4294967296,
    65535,
    -16384,
    32767,
    -32768,
    8388607,
    -8388608,
    1048575,
    -1048576,
    15,
    7,
    7,
    -33554432,
    524287,
    -512,
    -4096,
    4095,
    -4096,
    1,
];

pub(crate) fn and_back() {
    let mut bits = [255u8; 576];
    done(
        b"write_fields of the ends of ranges is done",
        &write_fields(&ENDS, &mut bits),
    );
    expected(
        b"  and they are read back",
        read_fields(&bits).is_ok_and(|counts| same_counts(&counts, &ENDS)),
    );
}
