// What the bench program prints for 250 page zeros and the sheet with every number 0, and for two sheets like it.
use super::tally::Tally;
use super::text::{Text, push_bytes, text_of};
use programs::building::print_frame;
use sheets::write::write_sheet;

// The page line, then the sheet in 243 bytes, then room for a line more. A refusal would leave characters that are no sheet.
fn zero_input() -> [u8; 500] {
    let numbers = [0i64; 34];
    let mut input = [b'0'; 500];
    input[250] = b'\n';
    let _ = write_sheet(&numbers, &mut input[251..494]);
    input
}

// The same with `tgd` spelt `tdg`.
fn misspelt_input() -> [u8; 500] {
    let mut input = zero_input();
    input[458] = b'd';
    input[459] = b'g';
    input
}

// The same with the toi line a second time before the trailer.
fn twice_input() -> [u8; 500] {
    let mut input = zero_input();
    input[483..500].copy_from_slice(b"toi=0\nback 00238\n");
    input
}

fn printed_text(input: &[u8]) -> Text {
    let output = print_frame(input);
    output_text(&output.bytes[..output.size])
}

// Zeros at the start are counted.
fn output_text(printed: &[u8]) -> Text {
    let zeros = printed
        .iter()
        .position(|byte| *byte != b'0')
        .unwrap_or(printed.len());
    let mut text = zeros_text(zeros);
    push_bytes(&mut text, &printed[zeros..]);
    text
}

fn zeros_text(zeros: usize) -> Text {
    if zeros == 0 {
        return Text::new();
    }
    text_of(format_args!("{zeros} zeros and "))
}

// This, `misspelt` and `twice` are rows of document 01, each with an input and texts of its own.
pub(crate) fn frame(tally: &mut Tally) {
    let input = zero_input();
    tally.add(
        b"with 250 page zeros the program prints 1800 zeros",
        printed_text(&input[0..494]),
        b"1800 zeros and \n",
    );
}

pub(crate) fn misspelt(tally: &mut Tally) {
    let input = misspelt_input();
    tally.add(
        b"that sheet with `tgd` spelt `tdg`: `refused 12 at 206`",
        printed_text(&input[0..494]),
        b"refused 12 at 206\n",
    );
}

pub(crate) fn twice(tally: &mut Tally) {
    let input = twice_input();
    tally.add(
        b"with the toi line a second time before the trailer and `back 00238`: `refused 13 at 232`",
        printed_text(&input),
        b"refused 13 at 232\n",
    );
}
