// The function of `parity::equations`.
ghost use Rattle.std.specs.Prelude.{◌<◌, ◌≤◌};

use parity::equations::first_unmet;
use show::{done, refused};
use tables::matrix::{Subframe, Submatrix, add, solve};

fn unmet(text: &[u8], subframe: Subframe, block: &[u8], number: u8, place: usize) {
    refused(text, &first_unmet(subframe, block), number, place);
}

pub(crate) fn met() {
    let zeros = [0u8; 1200];
    done(
        b"first_unmet of 1200 zeros of subframe 2 is done",
        &first_unmet(Subframe::Two, &zeros),
    );
    done(
        b"first_unmet of 548 zeros of subframe 3 is done",
        &first_unmet(Subframe::Three, &zeros[0..548]),
    );
}

// A wrong length comes before bytes that are no bits.
pub(crate) fn lengths() {
    let garbage = [255u8; 1201];
    unmet(
        b"first_unmet of nothing, of subframe 2, is refused 1 at 0",
        Subframe::Two,
        &garbage[0..0],
        1,
        0,
    );
    unmet(b"  of 548 bytes too", Subframe::Two, &garbage[0..548], 1, 0);
    unmet(b"  of 1199 too", Subframe::Two, &garbage[0..1199], 1, 0);
    unmet(b"  of 1201 too", Subframe::Two, &garbage, 1, 0);
    unmet(
        b"first_unmet of nothing, of subframe 3, is refused 1 at 0",
        Subframe::Three,
        &garbage[0..0],
        1,
        0,
    );
    unmet(
        b"  of 547 bytes too",
        Subframe::Three,
        &garbage[0..547],
        1,
        0,
    );
    unmet(b"  of 549 too", Subframe::Three, &garbage[0..549], 1, 0);
    unmet(b"  of 1200 too", Subframe::Three, &garbage[0..1200], 1, 0);
}

// With a text for garbage, one for a last byte 2, and one for a byte 254 in the place of p1.
// Asked for, here and below: that `N` is small. An array of any `N` may be larger than there is memory, and no type says how large.
fn no_bits_of<const N: usize>(of_garbage: &[u8], last: &[u8], p1: &[u8], subframe: Subframe)
    requires size { N ≤ 1200 }
    requires middle { 2 ≤ N }
{
    let mut block = [0u8; N];
    unmet(of_garbage, subframe, &[255; N], 2, 0);
    block[N - 1] = 2;
    unmet(last, subframe, &block, 2, N - 1);
    block[0] = 1;
    unmet(b"  and with a first byte 1 too", subframe, &block, 2, N - 1);
    block[N / 2] = 254;
    unmet(p1, subframe, &block, 2, N / 2);
}

// A byte that is no bit comes before an equation that is not met.
pub(crate) fn no_bits() {
    no_bits_of::<1200>(
        b"first_unmet of garbage, of subframe 2, is refused 2 at 0",
        b"  with a last byte 2: 2 at 1199",
        b"  with a byte 254 for p1: 2 at 600",
        Subframe::Two,
    );
    no_bits_of::<548>(
        b"first_unmet of garbage, of subframe 3, is refused 2 at 0",
        b"  with a last byte 2: 2 at 547",
        b"  with a byte 254 for p1: 2 at 274",
        Subframe::Three,
    );
}

// With one symbol set and no other.
fn unmet_with<const N: usize>(text: &[u8], subframe: Subframe, at: usize, number: u8, place: usize)
    requires size { N ≤ 1200 }
    requires inside { at < N }
{
    let mut block = [0u8; N];
    block[at] = 1;
    unmet(text, subframe, &block, number, place);
}

// In subframe 2 the first data symbol is in rows 1, 151 and 440, p1 in row 1 and more, the last symbol in rows 599 and 600; in
// subframe 3 the first is in rows 1, 17 and 231, p1 in row 3 and more, the last in rows 273 and 274.
pub(crate) fn single_symbols() {
    unmet_with::<1200>(
        b"first_unmet of subframe 2 with the first data symbol alone is refused 4 at 1",
        Subframe::Two,
        0,
        4,
        1,
    );
    unmet_with::<1200>(b"  with p1 alone: 4 at 1", Subframe::Two, 600, 4, 1);
    unmet_with::<1200>(
        b"  with the last symbol alone: 4 at 599",
        Subframe::Two,
        1199,
        4,
        599,
    );
    unmet_with::<548>(
        b"first_unmet of subframe 3 with the first data symbol alone is refused 7 at 1",
        Subframe::Three,
        0,
        7,
        1,
    );
    unmet_with::<548>(b"  with p1 alone: 7 at 3", Subframe::Three, 274, 7, 3);
    unmet_with::<548>(
        b"  with the last symbol alone: 7 at 273",
        Subframe::Three,
        547,
        7,
        273,
    );
}

// With p1 alone, and T⁻¹ B for p2, every equation is met but the last.
fn unmet_last<const N: usize>(text: &[u8], subframe: Subframe, number: u8, place: usize)
    requires size { N ≤ 1200 }
    requires middle { 2 ≤ N }
{
    let mut block = [0u8; N];
    block[N / 2] = 1;
    let symbols = &mut block[..];
    let p2 = &mut symbols[N / 2 + 1..];
    add(subframe, Submatrix::B, &[1], p2);
    solve(subframe, p2);
    unmet(text, subframe, &block, number, place);
}

pub(crate) fn last() {
    unmet_last::<1200>(
        b"first_unmet of subframe 2 with all met but the last is refused 4 at 600",
        Subframe::Two,
        4,
        600,
    );
    unmet_last::<548>(
        b"first_unmet of subframe 3 with all met but the last is refused 7 at 274",
        Subframe::Three,
        7,
        274,
    );
}
