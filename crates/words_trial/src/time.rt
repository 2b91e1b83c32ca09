// The functions of `words::time`.
use show::{done, expected, refused};
use words::bits::{put_number, take_number};
use words::refusal::refuse;
use words::time::{Time, read_time, write_time};

// The time read, with the number of symbols corrected.
fn read(text: &[u8], symbols: &[u8], toi: u16, corrected: u32) {
    expected(text, read_time(symbols) == Ok(Time { toi, corrected }));
}

// Written over garbage, as a number of 52 bits, and read back with nothing corrected.
fn word(text: &[u8], toi: u16, symbols: u64) {
    let mut out = [9u8; 52];
    done(text, &write_time(&mut out, toi));
    expected(
        b"  and the word is that",
        take_number(&out, 0, 52) == symbols,
    );
    read(b"  and it is read back with 0", &out, toi, 0);
}

pub(crate) fn known() {
    word(b"write_time of 0 is done: 52 zeros", 0, 0);
    word(b"write_time of 256 is done: 52 ones", 256, 0xFFFFFFFFFFFFF);
    word(
        b"write_time of 1 is done: 00F3A905B4BE3 hex",
        1,
        0x00F3A905B4BE3,
    );
    word(
        b"write_time of 399 is done: B81B635080516 hex",
        399,
        0xB81B635080516,
    );
}

pub(crate) fn writing() {
    let mut out = [3u8; 52];
    refused(
        b"write_time of 400 is refused 3 at 0",
        &write_time(&mut out, 400),
        3,
        0,
    );
    refused(
        b"write_time of 65535 is refused 3 at 0",
        &write_time(&mut out, 65535),
        3,
        0,
    );
    expected(b"  and the bytes stay", out == [3; 52]);
}

pub(crate) fn writing_elsewhere() {
    let mut short = [3u8; 51];
    let mut long = [3u8; 53];
    refused(
        b"write_time of 400 into 51 is refused 1 at 0",
        &write_time(&mut short, 400),
        1,
        0,
    );
    refused(
        b"write_time into 53 is refused 1 at 0",
        &write_time(&mut long, 0),
        1,
        0,
    );
    refused(
        b"write_time into nothing is refused 1 at 0",
        &write_time(&mut short[0..0], 0),
        1,
        0,
    );
}

pub(crate) fn reading() {
    let garbage = [255u8; 60];
    let mut symbols = [0u8; 52];
    refused(
        b"nothing is refused 1 at 0",
        &read_time(&garbage[0..0]),
        1,
        0,
    );
    refused(
        b"51 symbols are refused 1 at 0",
        &read_time(&garbage[0..51]),
        1,
        0,
    );
    refused(
        b"53 symbols are refused 1 at 0",
        &read_time(&garbage[0..53]),
        1,
        0,
    );
    refused(
        b"garbage is refused 2 at 0",
        &read_time(&garbage[0..52]),
        2,
        0,
    );
    symbols[51] = 2;
    refused(
        b"a last byte 2 is refused 2 at 51",
        &read_time(&symbols),
        2,
        51,
    );
}

// The first nine symbols of 0's word turned are borne; with the tenth no time is near.
pub(crate) fn turned() {
    let mut symbols = [0u8; 52];
    done(
        b"put_number of nine ones in front is done",
        &put_number(&mut symbols, 0, 9, 511),
    );
    read(b"nine turned are read as 0 with 9", &symbols, 0, 9);
    symbols[9] = 1;
    refused(b"ten turned are refused 3 at 0", &read_time(&symbols), 3, 0);
}

// A refusal where a time would be given. The texts are as they were printed when a function of this name put zeros beside it.
pub(crate) fn no_times() {
    refused(
        b"no_time(0, 0) is that refusal, with zeros",
        &refuse::<Time>(0, 0),
        0,
        0,
    );
    refused(
        b"no_time(255, last) is that refusal, with zeros",
        &refuse::<Time>(255, usize::MAX),
        255,
        usize::MAX,
    );
}
