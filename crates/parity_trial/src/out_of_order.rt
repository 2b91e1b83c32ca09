// What the function `deinterleave` of `parity::order` refuses.
ghost use Rattle.std.specs.Prelude.{◌≤◌};

use parity::order::deinterleave;
use show::{expected, refused};

// Refused, into blocks of these lengths, which stay.
// It calls `deinterleave` itself: a closure of that call at each place below would be no plainer.
fn stay<const N: usize, const M: usize>(text: &[u8], symbols: &[u8], number: u8, place: usize)
    requires size2 { N ≤ 1201 }
    requires size3 { M ≤ 549 }
{
    let mut block2 = [9u8; N];
    let mut block3 = [9u8; M];
    refused(
        text,
        &deinterleave(symbols, &mut block2, &mut block3),
        number,
        place,
    );
    expected(b"  and block 2 stays", block2 == [9; N]);
    expected(b"  and block 3 stays", block3 == [9; M]);
}

// A wrong length comes before bytes that are no bits.
pub(crate) fn lengths_of_symbols() {
    let garbage = [255u8; 1749];
    stay::<1200, 548>(
        b"deinterleave of nothing is refused 1 at 0",
        &garbage[0..0],
        1,
        0,
    );
    stay::<1200, 548>(b"  of 1747 bytes too", &garbage[0..1747], 1, 0);
    stay::<1200, 548>(b"  of 1749 too", &garbage, 1, 0);
}

// Of good symbols.
pub(crate) fn lengths_of_blocks() {
    let symbols = [0u8; 1748];
    stay::<1199, 548>(
        b"deinterleave into 1199 bytes for block 2 is refused 1 at 0",
        &symbols,
        1,
        0,
    );
    stay::<1201, 548>(b"  into 1201 too", &symbols, 1, 0);
    stay::<0, 548>(b"  into nothing too", &symbols, 1, 0);
    stay::<1200, 547>(
        b"deinterleave into 547 bytes for block 3 is refused 1 at 0",
        &symbols,
        1,
        0,
    );
    stay::<1200, 549>(b"  into 549 too", &symbols, 1, 0);
    stay::<1200, 0>(b"  into nothing too", &symbols, 1, 0);
}

pub(crate) fn no_bits() {
    let garbage = [255u8; 1748];
    let mut middle = [1u8; 1748];
    let mut last = [1u8; 1748];
    middle[1200] = 2;
    last[1747] = 254;
    stay::<1200, 548>(b"deinterleave of garbage is refused 2 at 0", &garbage, 2, 0);
    stay::<1200, 548>(b"  of a byte 2 at 1200: 2 at 1200", &middle, 2, 1200);
    stay::<1200, 548>(b"  of a last byte 254: 2 at 1747", &last, 2, 1747);
}
