// The functions of `words::crc`.
use show::{done, expected, refused};
use words::crc::{check_bits, is_right, put_check, remainder};

pub(crate) fn known() {
    let mut bits = [0u8; 576];
    expected(b"check_bits of 576 zeros is 000000", check_bits(&bits) == 0);
    bits[575] = 1;
    expected(
        b"check_bits with bit 576 set is 864CFB",
        check_bits(&bits) == 0x864CFB,
    );
    bits[575] = 0;
    bits[574] = 1;
    expected(
        b"check_bits with bit 575 set is 8AD50D",
        check_bits(&bits) == 0x8AD50D,
    );
}

pub(crate) fn extreme() {
    let even = [254u8; 1000];
    let one = [255u8; 1];
    expected(b"check_bits of nothing is 0", check_bits(&even[0..0]) == 0);
    expected(b"check_bits of bytes 254 is 0", check_bits(&even) == 0);
    expected(
        b"check_bits of one byte 255 is that of a one",
        check_bits(&one) == 0x864CFB,
    );
    expected(b"remainder of nothing is 0", remainder(&even[0..0]) == 0);
    expected(b"remainder of one byte 255 is 1", remainder(&one) == 1);
    expected(b"nothing is right", is_right(&even[0..0]));
    expected(b"a one is not right", !is_right(&one));
}

pub(crate) fn refusing() {
    let mut short = [5u8; 23];
    refused(
        b"put_check into nothing is refused 1 at 0",
        &put_check(&mut short[0..0]),
        1,
        0,
    );
    refused(
        b"put_check into 23 places is refused 1 at 0",
        &put_check(&mut short),
        1,
        0,
    );
    expected(b"  and the bytes stay", short == [5; 23]);
}

pub(crate) fn putting() {
    let mut block = [1u8; 600];
    expected(b"600 ones are not right", !is_right(&block));
    done(b"put_check into them is done", &put_check(&mut block));
    expected(b"  and they are right", is_right(&block));
    block[300] = 0;
    expected(b"  and not with a place changed", !is_right(&block));
    block[323] = 0;
    expected(b"  nor with two changed", !is_right(&block));
}
