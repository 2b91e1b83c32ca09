// The functions `judge_page` and `take_page` of `fields::pages`; a page that is taken is put back by `put_page`.
ghost use Rattle.std.specs.Prelude.{◌<◌};

use fields::pages::{A0, DN, Kind, Page, TEXT, TEXT_PAGE, judge_page, put_page, take_page};
use show::{done, expected, refused};
use words::bits::put_number;
use words::refusal::Refusal;

pub(crate) fn lengths() {
    let garbage = [255u8; 251];
    refused(
        b"judge_page of nothing is refused 1 at 0",
        &judge_page(&garbage[0..0]),
        1,
        0,
    );
    refused(b"  of 249 bytes too", &judge_page(&garbage[0..249]), 1, 0);
    refused(b"  of 251 too", &judge_page(&garbage), 1, 0);
    refused(
        b"  of 250 bytes of garbage 2 at 0",
        &judge_page(&garbage[0..250]),
        2,
        0,
    );
}

pub(crate) fn no_bits() {
    let ones = [1u8; 250];
    let mut bits = [0u8; 250];
    done(b"judge_page of 250 zeros is done", &judge_page(&bits));
    done(b"  of 250 ones, page 63, too", &judge_page(&ones));
    bits[249] = 2;
    refused(
        b"  with a last byte 2 it is refused 2 at 249",
        &judge_page(&bits),
        2,
        249,
    );
}

// A page number, and tot and DN where page 1 has them.
fn put_fields(number: u8, tot: u16, dn: u8, bits: &mut [u8; 250])
    requires { (number < 64) × (dn < 16) }
{
    put_number(bits, 8, 6, u64::from(number)).unwrap();
    put_number(bits, 58, 16, u64::from(tot)).unwrap();
    put_number(bits, 100, 4, u64::from(dn)).unwrap();
}

// The same among zeros.
fn judged(number: u8, tot: u16, dn: u8) -> Result<(), Refusal>
    requires { (number < 64) × (dn < 16) }
{
    let mut bits = [0u8; 250];
    put_fields(number, tot, dn, &mut bits);
    judge_page(&bits)
}

pub(crate) fn ranges() {
    done(
        b"page 1 with tot 37799 and DN 7 is done",
        &judged(1, 37799, 7),
    );
    done(b"  with tot 0 and DN 1 too", &judged(1, 0, 1));
    refused(
        b"  with tot 37800 it is refused 9 at 59",
        &judged(1, 37800, 0),
        9,
        59,
    );
    refused(b"  with DN 0 9 at 101", &judged(1, 0, 0), 9, 101);
    refused(b"  with DN 8 9 at 101", &judged(1, 37799, 8), 9, 101);
    done(b"page 6 with such bits is done", &judged(6, 65535, 15));
    done(b"page 63 too", &judged(63, 65535, 15));
    done(b"page 0 too", &judged(0, 65535, 0));
}

// ---- taken

// Taken as this page, with a text for its PRN, number and kind, one for its counts and one for its bits, and put back.
fn taken_as(head: &[u8], counts: &[u8], carried: &[u8], bits: &[u8; 250], page: Page) {
    let taken = take_page(bits);
    expected(
        head,
        taken.is_ok_and(|taken| {
            taken.prn == page.prn && taken.number == page.number && taken.kind == page.kind
        }),
    );
    expected(counts, taken.is_ok_and(|taken| taken.counts == page.counts));
    expected(carried, taken.is_ok_and(|taken| taken.bits == page.bits));
    comes_back(bits, page);
}

// Put into garbage: the same bits.
fn comes_back(bits: &[u8; 250], page: Page) {
    let mut back = [9u8; 250];
    done(b"  and put_page is done", &put_page(page, &mut back));
    expected(b"  and the bits are the same", back == *bits);
}

// Every count and bit zero.
fn zero_page(prn: u8, number: u8, kind: Kind) -> Page {
    Page {
        prn,
        number,
        kind,
        counts: [0; 30],
        bits: [0; 236],
    }
}

// PRN 255, A0 with its first bit set, DN 3, the first bit behind the fields set.
pub(crate) fn taken_one() {
    let mut bits = [0u8; 250];
    let mut page = zero_page(255, 1, Kind::One);
    put_number(&mut bits, 0, 14, 16321).unwrap();
    put_number(&mut bits, 14, 16, 32768).unwrap();
    put_number(&mut bits, 100, 4, 3).unwrap();
    put_number(&mut bits, 176, 1, 1).unwrap();
    page.counts[A0] = -32768;
    page.counts[DN] = 3;
    page.bits[0] = 1;
    taken_as(
        b"take_page of a page 1 is done: PRN 255",
        b"  A0 -32768, DN 3, zeros behind the last",
        b"  and bits 177 to 250 as bits",
        &bits,
        page,
    );
}

// The text page 9, the first byte 65, the last 255.
pub(crate) fn taken_six() {
    let mut bits = [0u8; 250];
    let mut page = zero_page(0, 6, Kind::Six);
    put_number(&mut bits, 8, 6, 6).unwrap();
    put_number(&mut bits, 14, 4, 9).unwrap();
    put_number(&mut bits, 18, 8, 65).unwrap();
    put_number(&mut bits, 242, 8, 255).unwrap();
    page.counts[TEXT_PAGE] = 9;
    page.counts[TEXT] = 65;
    page.counts[29] = 255;
    taken_as(
        b"take_page of a page 6 is done: PRN 0",
        b"  text page 9, its first byte 65, its last 255",
        b"  and no bits",
        &bits,
        page,
    );
}

pub(crate) fn taken_bare() {
    let bits = [1u8; 250];
    let mut page = zero_page(255, 63, Kind::Bare);
    page.bits = [1; 236];
    taken_as(
        b"take_page of 250 ones is done: PRN 255, page 63, bare bits",
        b"  no counts",
        b"  and the body",
        &bits,
        page,
    );
}

// ---- not taken

// Refused. Nothing can stand beside it: the second text is as it was printed when zeros did.
// frames_trial has the like of it for `read`: one for both would be a public function of `show`, no plainer for two callers.
fn refuses(text: &[u8], bits: &[u8], number: u8, place: usize) {
    let taken = take_page(bits);
    refused(text, &taken, number, place);
    expected(
        b"  and beside it are zeros",
        taken == Err(Refusal { number, place }),
    );
}

pub(crate) fn not_taken() {
    let garbage = [255u8; 251];
    let mut bits = [1u8; 250];
    refuses(
        b"take_page of nothing is refused 1 at 0",
        &garbage[0..0],
        1,
        0,
    );
    refuses(b"  of 249 bytes too", &garbage[0..249], 1, 0);
    refuses(b"  of 251 too", &garbage, 1, 0);
    refuses(b"  of garbage 2 at 0", &garbage[0..250], 2, 0);
    put_fields(1, 37800, 8, &mut bits);
    refuses(b"  of page 1 with tot 37800 9 at 59", &bits, 9, 59);
    put_fields(1, 37799, 8, &mut bits);
    refuses(b"  with DN 8 9 at 101", &bits, 9, 101);
}
