// What the function `put_page` of `fields::pages` refuses, and what it does not look at.
ghost use Rattle.std.specs.Prelude.{◌≤◌};

use fields::pages::{A0, BETA3, DN, Kind, Page, TEXT, TEXT_PAGE, TOT, put_page};
use show::{done, expected, refused};

// Counts that are DN 1, and one other; the body's bits are zeros but one byte.
fn page_with(kind: Kind, number: u8, k: usize, count: i64, at: usize, byte: u8) -> Page {
    let mut counts = [0i64; 30];
    let mut bits = [0u8; 236];
    counts[DN] = 1;
    if let Some(other) = counts.get_mut(k) {
        *other = count;
    }
    if let Some(bit) = bits.get_mut(at) {
        *bit = byte;
    }
    Page {
        prn: 255,
        number,
        kind,
        counts,
        bits,
    }
}

// Into as many bytes: refused, and they stay.
// It calls `put_page` itself: a closure of that call at each place below would be no plainer.
// Asked for, here and below: that `N` is small. An array of any `N` may be larger than there is memory, and no type says how large.
fn stays_in<const N: usize>(text: &[u8], page: Page, number: u8, place: usize)
    requires { N ≤ 251 }
{
    let mut bits = [9u8; N];
    refused(text, &put_page(page, &mut bits), number, place);
    expected(b"  and the bytes stay", bits == [9; N]);
}

fn stays(text: &[u8], page: Page, number: u8, place: usize) {
    stays_in::<250>(text, page, number, place);
}

fn bare(number: u8) -> Page {
    page_with(Kind::Bare, number, 0, 0, 0, 1)
}

// A wrong length comes before a wrong page number.
pub(crate) fn lengths() {
    stays_in::<0>(b"put_page into nothing is refused 1 at 0", bare(255), 1, 0);
    stays_in::<249>(b"  into 249 bytes too", bare(255), 1, 0);
    stays_in::<251>(b"  into 251 too", bare(255), 1, 0);
}

pub(crate) fn no_bits() {
    stays(
        b"bare bits with a first byte 2 are refused 2 at 0",
        page_with(Kind::Bare, 255, 0, 0, 0, 2),
        2,
        0,
    );
    stays(
        b"with a last byte 255 2 at 235",
        page_with(Kind::Bare, 1, 0, 0, 235, 255),
        2,
        235,
    );
    stays(
        b"page 1 with a last bit 2 2 at 73",
        page_with(Kind::One, 6, A0, i64::MIN, 73, 2),
        2,
        73,
    );
}

pub(crate) fn numbers() {
    stays(b"bare bits of page 64 are refused 9 at 9", bare(64), 9, 9);
    stays(b"of page 255 too", bare(255), 9, 9);
    stays(b"of page 1 too", bare(1), 9, 9);
    stays(b"of page 6 too", bare(6), 9, 9);
    stays(
        b"a page 1 record of page 6 too",
        page_with(Kind::One, 6, A0, i64::MIN, 0, 0),
        9,
        9,
    );
    stays(
        b"a page 6 record of page 1 too",
        page_with(Kind::Six, 1, TEXT_PAGE, i64::MIN, 0, 0),
        9,
        9,
    );
    stays(
        b"a page 6 record of page 70 too",
        page_with(Kind::Six, 70, TEXT_PAGE, 0, 0, 0),
        9,
        9,
    );
}

// One count, and it is refused 9.
fn out_of_range(text: &[u8], kind: Kind, number: u8, k: usize, count: i64, place: usize) {
    stays(text, page_with(kind, number, k, count, 0, 0), 9, place);
}

pub(crate) fn ranges() {
    out_of_range(b"A0 32768 is refused 9 at 15", Kind::One, 1, A0, 32768, 15);
    out_of_range(b"A0 the least of all too", Kind::One, 1, A0, i64::MIN, 15);
    out_of_range(b"tot 37800 9 at 59", Kind::One, 1, TOT, 37800, 59);
    out_of_range(b"tot -1 too", Kind::One, 1, TOT, -1, 59);
    out_of_range(b"DN 0 9 at 101", Kind::One, 1, DN, 0, 101);
    out_of_range(b"DN 8 too", Kind::One, 1, DN, 8, 101);
    out_of_range(b"beta3 128 9 at 169", Kind::One, 1, BETA3, 128, 169);
    out_of_range(b"text page 16 9 at 15", Kind::Six, 6, TEXT_PAGE, 16, 15);
    out_of_range(
        b"a first byte of text 256 9 at 19",
        Kind::Six,
        6,
        TEXT,
        256,
        19,
    );
    out_of_range(b"a last one of -1 9 at 243", Kind::Six, 6, 29, -1, 243);
}

fn is_put(text: &[u8], page: Page) {
    let mut bits = [9u8; 250];
    done(text, &put_page(page, &mut bits));
}

// Page 1 has 17 counts and 74 bits, page 6 30 counts, bare bits all 236.
pub(crate) fn not_looked_at() {
    is_put(
        b"bare bits with any counts are put",
        page_with(Kind::Bare, 63, 29, i64::MIN, 235, 1),
    );
    is_put(
        b"page 1 with any count 17 is put",
        page_with(Kind::One, 1, 17, i64::MIN, 73, 1),
    );
    is_put(
        b"page 1 with any byte 74 is put",
        page_with(Kind::One, 1, A0, -32768, 74, 255),
    );
    is_put(
        b"page 6 with any byte is put",
        page_with(Kind::Six, 6, 29, 255, 0, 255),
    );
}
