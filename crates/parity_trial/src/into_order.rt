// The function `interleave` of `parity::order`, and back where it is done.
ghost use Rattle.std.specs.Prelude.{◌≤◌};

use parity::order::{deinterleave, interleave};
use show::{done, expected, refused};

// Into order over garbage, and back over garbage.
fn in_order(text: &[u8], block2: &[u8], block3: &[u8], after: &[u8; 1748]) {
    let mut symbols = [255u8; 1748];
    done(text, &interleave(block2, block3, &mut symbols));
    expected(b"  and the symbols are those", symbols == *after);
}

fn out_of_order(symbols: &[u8], after2: &[u8; 1200], after3: &[u8; 548]) {
    let mut block2 = [255u8; 1200];
    let mut block3 = [255u8; 548];
    done(
        b"  deinterleave of them is done",
        &deinterleave(symbols, &mut block2, &mut block3),
    );
    expected(b"  and block 2 is back", block2 == *after2);
    expected(b"  and block 3 is back", block3 == *after3);
}

fn both_ways(text: &[u8], block2: &[u8; 1200], block3: &[u8; 548], symbols: &[u8; 1748]) {
    in_order(text, block2, block3, symbols);
    out_of_order(symbols, block2, block3);
}

fn all_of(text: &[u8], byte: u8) {
    let block2 = [byte; 1200];
    let block3 = [byte; 548];
    let symbols = [byte; 1748];
    both_ways(text, &block2, &block3, &symbols);
}

pub(crate) fn all_the_same() {
    all_of(b"interleave of zeros is done", 0);
    all_of(b"interleave of ones is done", 1);
}

pub(crate) fn single_ones() {
    let zeros2 = [0u8; 1200];
    let zeros3 = [0u8; 548];
    let mut one = zeros2;
    let mut ends = zeros3;
    let mut left_at_38 = [0u8; 1748];
    let mut left_at_178 = [0u8; 1748];
    one[1] = 1;
    left_at_38[38] = 1;
    ends[0] = 1;
    ends[547] = 1;
    left_at_178[178] = 1;
    left_at_178[1747] = 1;
    both_ways(
        b"interleave of a one at 1 of block 2 is done, and it leaves at 38",
        &one,
        &zeros3,
        &left_at_38,
    );
    both_ways(
        b"interleave of ones at the ends of block 3 is done, and they leave at 178 and 1747",
        &zeros2,
        &ends,
        &left_at_178,
    );
}

// ---- refused

// Into as many symbols: refused, and they stay.
// It calls `interleave` itself: a closure of that call at each place below would be no plainer.
// Asked for, here and below: that `N` is small. An array of any `N` may be larger than there is memory, and no type says how large.
fn stays<const N: usize>(text: &[u8], block2: &[u8], block3: &[u8], number: u8, place: usize)
    requires { N ≤ 1749 }
{
    let mut symbols = [9u8; N];
    refused(
        text,
        &interleave(block2, block3, &mut symbols),
        number,
        place,
    );
    expected(b"  and the symbols stay", symbols == [9; N]);
}

// A wrong length comes before bytes that are no bits.
pub(crate) fn lengths_of_blocks() {
    let garbage = [255u8; 1201];
    stays::<1748>(
        b"interleave of no block 2 is refused 1 at 0",
        &garbage[0..0],
        &garbage[0..548],
        1,
        0,
    );
    stays::<1748>(
        b"  of 1199 bytes too",
        &garbage[0..1199],
        &garbage[0..548],
        1,
        0,
    );
    stays::<1748>(b"  of 1201 too", &garbage, &garbage[0..548], 1, 0);
    stays::<1748>(
        b"interleave of no block 3 is refused 1 at 0",
        &garbage[0..1200],
        &garbage[0..0],
        1,
        0,
    );
    stays::<1748>(
        b"  of 547 bytes too",
        &garbage[0..1200],
        &garbage[0..547],
        1,
        0,
    );
    stays::<1748>(b"  of 549 too", &garbage[0..1200], &garbage[0..549], 1, 0);
}

// Of good blocks.
pub(crate) fn lengths_of_symbols() {
    let block2 = [0u8; 1200];
    let block3 = [0u8; 548];
    stays::<1747>(
        b"interleave into 1747 bytes is refused 1 at 0",
        &block2,
        &block3,
        1,
        0,
    );
    stays::<1749>(b"  into 1749 too", &block2, &block3, 1, 0);
    stays::<0>(b"  into nothing too", &block2, &block3, 1, 0);
}

fn garbage() {
    let zeros = [0u8; 1200];
    let block2 = [255u8; 1200];
    let block3 = [255u8; 548];
    stays::<1748>(
        b"interleave of garbage is refused 2 at 0",
        &block2,
        &block3,
        2,
        0,
    );
    stays::<1748>(
        b"  of garbage in block 3 alone: 2 at 1200",
        &zeros,
        &block3,
        2,
        1200,
    );
}

// The place is counted over the blocks one after another.
pub(crate) fn no_bits() {
    let zeros = [0u8; 1200];
    let mut first = [0u8; 548];
    let mut last = [0u8; 548];
    first[0] = 2;
    last[547] = 2;
    garbage();
    stays::<1748>(
        b"interleave of a first byte 2 of block 3 is refused 2 at 1200",
        &zeros,
        &first,
        2,
        1200,
    );
    stays::<1748>(
        b"interleave of a last byte 2 of block 3 is refused 2 at 1747",
        &zeros,
        &last,
        2,
        1747,
    );
}
