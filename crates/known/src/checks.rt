// Check bits.
use super::tally::Tally;
use super::text::{Text, text_of};
use words::crc::check_bits;

// The check bits in hexadecimal.
fn check_of(bits: &[u8]) -> Text {
    let check = check_bits(bits);
    text_of(format_args!("{check:06x}"))
}

pub(crate) fn run(tally: &mut Tally) {
    let mut bits = [0u8; 576];
    let zero = check_of(&bits);
    bits[575] = 1;
    let last = check_of(&bits);
    bits[575] = 0;
    bits[574] = 1;
    tally.add(
        b"data bits 1 to 576 zero but bit 576: check bits 864CFB hex",
        last,
        b"864cfb",
    );
    tally.add(
        b"data bits 1 to 576 zero but bit 575: 8AD50D",
        check_of(&bits),
        b"8ad50d",
    );
    tally.add(b"data bits 1 to 576 all zero: 000000", zero, b"000000");
}
