// The function of `frames::build`.
ghost use Rattle.std.specs.Prelude.{◌<◌, ◌≤◌};

use fields::subframe2::{ISF, ITOW, M0, TGD, TOE, WN};
use frames::build::build;
use show::{done, expected, refused};
use words::bits::put_number;

// Over garbage.
pub(crate) fn zeros() {
    let counts = [0i64; 33];
    let page = [0u8; 250];
    let mut frame = [255u8; 1800];
    done(
        b"build of zeros is done",
        &build(0, &counts, &page, &mut frame),
    );
    expected(b"  and the frame is 1800 zeros", frame == [0; 1800]);
}

// Into a frame of that length: refused, and it stays, which the text `then` says.
// It calls `build` itself: a closure of that call at each place below would be no plainer.
// Asked for, here and below: that `N` is small. An array of any `N` may be larger than there is memory, and no type says how large.
fn stays_in<const N: usize>(
    text: &[u8],
    then: &[u8],
    toi: u16,
    counts: &[i64],
    page: &[u8],
    number: u8,
    place: usize,
)
    requires { N ≤ 1801 }
{
    let mut frame = [7u8; N];
    refused(text, &build(toi, counts, page, &mut frame), number, place);
    expected(then, frame == [7; N]);
}

fn stays(text: &[u8], toi: u16, counts: &[i64], page: &[u8], number: u8, place: usize) {
    stays_in::<1800>(
        text,
        b"  and the frame stays",
        toi,
        counts,
        page,
        number,
        place,
    );
}

// Everything else is wrong too: a wrong length comes first.
fn other_contents() {
    let counts = [i64::MIN; 34];
    let page = [255u8; 251];
    stays(
        b"build of no counts is refused 1 at 0",
        400,
        &counts[0..0],
        &page[0..250],
        1,
        0,
    );
    stays(b"  of 32 too", 400, &counts[0..32], &page[0..250], 1, 0);
    stays(b"  of 34 too", 400, &counts, &page[0..250], 1, 0);
    stays(
        b"  of no page bits too",
        400,
        &counts[0..33],
        &page[0..0],
        1,
        0,
    );
    stays(b"  of 249 too", 400, &counts[0..33], &page[0..249], 1, 0);
    stays(b"  of 251 too", 400, &counts[0..33], &page, 1, 0);
}

fn other_frame<const N: usize>(text: &[u8])
    requires { N ≤ 1801 }
{
    stays_in::<N>(text, b"  and it stays", 0, &[0; 33], &[0; 250], 1, 0);
}

fn other_frames() {
    other_frame::<0>(b"build into nothing is refused 1 at 0");
    other_frame::<1799>(b"  into 1799 bytes too");
    other_frame::<1801>(b"  into 1801 too");
}

pub(crate) fn lengths() {
    other_contents();
    other_frames();
}

pub(crate) fn no_bits() {
    let counts = [i64::MIN; 33];
    let garbage = [255u8; 250];
    let mut page = [0u8; 250];
    stays(
        b"build with garbage for a page is refused 2 at 0",
        65535,
        &counts,
        &garbage,
        2,
        0,
    );
    page[249] = 2;
    stays(
        b"  with a last byte 2, 2 at 249",
        400,
        &counts,
        &page,
        2,
        249,
    );
}

pub(crate) fn times() {
    let counts = [i64::MIN; 33];
    let page = [0u8; 250];
    stays(
        b"build of time 400 is refused 3 at 0",
        400,
        &counts,
        &page,
        3,
        0,
    );
    stays(b"  of 65535 too", 65535, &counts, &page, 3, 0);
    stays(
        b"  of 399 not for that, but 6 at 1",
        399,
        &counts,
        &page,
        6,
        1,
    );
}

// Zeros with one other count.
// fields_trial has it too, known the like: one for all would be public in `show`, with a contract and wrong programs of its own, for five
// lines.
fn counts_with(k: usize, count: i64) -> [i64; 33]
    requires { k < 33 }
{
    let mut counts = [0i64; 33];
    counts[k] = count;
    counts
}

// This and `not_with_count` tell of `build`, as `written` and `not_written` of fields_trial of `write_fields`: one for
// both would take a closure of the call, and be no plainer.
fn with_count(text: &[u8], k: usize, count: i64)
    requires { k < 33 }
{
    let mut frame = [255u8; 1800];
    done(
        text,
        &build(399, &counts_with(k, count), &[0; 250], &mut frame),
    );
}

fn not_with_count(text: &[u8], k: usize, count: i64, place: usize)
    requires { k < 33 }
{
    stays(text, 399, &counts_with(k, count), &[0; 250], 6, place);
}

pub(crate) fn known() {
    with_count(b"build with itow 83 is done", ITOW, 83);
    not_with_count(b"  with 84 refused 6 at 14", ITOW, 84, 14);
    with_count(b"build with toe 2015 is done", TOE, 2015);
    not_with_count(b"  with 2016 refused 6 at 39", TOE, 2016, 39);
    with_count(b"build with tgd -4096 is done", TGD, -4096);
    not_with_count(b"  with -4097 refused 6 at 527", TGD, -4097, 527);
}

pub(crate) fn extreme() {
    not_with_count(b"build with wn -1 is refused 6 at 1", WN, -1, 1);
    not_with_count(
        b"  with the least of all for m0 6 at 141",
        M0,
        i64::MIN,
        141,
    );
    not_with_count(b"  with the most for isf 6 at 566", ISF, i64::MAX, 566);
}

fn with_page(text: &[u8], count: i64, tot: u16, dn: u8, number: u8, place: usize)
    requires { dn < 16 }
{
    let mut page = [0u8; 250];
    put_number(&mut page, 8, 6, 1).unwrap();
    put_number(&mut page, 58, 16, u64::from(tot)).unwrap();
    put_number(&mut page, 100, 4, u64::from(dn)).unwrap();
    stays(text, 0, &counts_with(ISF, count), &page, number, place);
}

pub(crate) fn pages() {
    with_page(
        b"build with a page 1 with tot 37800 is refused 9 at 59",
        1,
        37800,
        0,
        9,
        59,
    );
    with_page(b"  with DN 0 9 at 101", 0, 37799, 0, 9, 101);
    with_page(b"  with DN 8 and isf 2 6 at 566", 2, 0, 8, 6, 566);
}
