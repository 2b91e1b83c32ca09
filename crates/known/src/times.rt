// Time words.
use super::tally::Tally;
use super::text::{Text, push_bytes, text_of};
use words::bits::{put_number, take_number};
use words::time::{Time, read_time, write_time};

fn symbols_text(symbols: &[u8]) -> Text {
    let mut text = Text::new();
    push_bytes(&mut text, symbols);
    text
}

fn word_of(toi: u16) -> Text {
    let mut symbols = [255u8; 52];
    match write_time(&mut symbols, toi) {
        Ok(()) => symbols_text(&symbols),
        Err(refusal) => text_of(refusal),
    }
}

pub(crate) fn words_of(tally: &mut Tally) {
    let zeros = [0u8; 52];
    let ones = [1u8; 52];
    tally.add(b"TOI 0 gives 52 zeros", word_of(0), &zeros);
    tally.add(b"TOI 256 gives 52 ones", word_of(256), &ones);
}

fn time_in(symbols: &[u8]) -> Text {
    match read_time(symbols) {
        Ok(Time { toi, corrected }) => text_of(format_args!("{toi} with {corrected}")),
        Err(refusal) => text_of(refusal),
    }
}

// TOI 0's word with its first nine symbols turned. A refusal would leave symbols that are no bits.
fn nine_turned() -> [u8; 52] {
    let mut symbols = [255u8; 52];
    let _ = write_time(&mut symbols, 0);
    let turned = take_number(&symbols, 0, 9) ^ 511;
    let _ = put_number(&mut symbols, 0, 9, turned);
    symbols
}

pub(crate) fn read(tally: &mut Tally) {
    let turned = nine_turned();
    let zeros = [0u8; 52];
    tally.add(
        b"the first nine symbols of TOI 0's word turned read as 0 with 9",
        time_in(&turned),
        b"0 with 9",
    );
    tally.add(
        b"all 52 zeros read as 0 with 0",
        time_in(&zeros),
        b"0 with 0",
    );
}
