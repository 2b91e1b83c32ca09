// The cases of the programs: what the bench program prints, and what reading back prints.
use super::base::{Base, Desk};
use super::bytes::{are_then, copy_first, first_bytes, first_told, set_byte, set_places};
use super::contents::read_symbols;
use super::input::read_number;
use super::texts::read_text;
use programs::building::print_frame;
use programs::output::Output;
use programs::reading::print_sheet;

// ---- the bench program

// The frame becomes the base frame, and the input the base text.
pub(crate) fn bench_frame_agrees(base: &mut Base, desk: &mut Desk) -> bool {
    let count = read_text(&base.text, &mut desk.text, b' ');
    let is_frame = read_symbols(&mut base.frame);
    write_characters(&base.frame, &mut desk.printed);
    copy_first(first_told(&desk.text, count), &mut base.text);
    is_frame && bench_prints(&desk.text, count, Some(1801), &desk.printed)
}

pub(crate) fn bench_refusal_agrees(base_text: &[u8], desk: &mut Desk) -> bool {
    let count = read_text(base_text, &mut desk.text, b' ');
    let size = read_text(base_text, &mut desk.printed, b'\n');
    bench_prints(&desk.text, count, size, &desk.printed)
}

// Where its input is the first `count` bytes of the text, and what is told are the first `size` that are printed.
fn bench_prints(text: &[u8], count: Option<usize>, size: Option<usize>, printed: &[u8]) -> bool {
    match (count, size) {
        (Some(count), Some(size)) => is_printed(
            print_frame(first_bytes(text, count)),
            first_bytes(printed, size),
        ),
        _ => false,
    }
}

// ---- reading back

pub(crate) fn readback_agrees(base: &Base, desk: &mut Desk) -> bool {
    let length = read_number(4, b' ');
    write_characters(&base.frame, &mut desk.text);
    let are_places = set_places(&mut desk.text);
    let size = read_text(&base.text, &mut desk.printed, b'\n');
    let output = print_sheet(first_told(&desk.text, length));
    are_places && is_printed(output, first_told(&desk.printed, size))
}

// ---- what is printed

// The characters of a frame, a newline, and a character 0.
fn write_characters(frame: &[u8; 1800], text: &mut [u8]) {
    for (place, &symbol) in text.iter_mut().zip(frame.iter()) {
        *place = character(symbol);
    }
    set_byte(text, 1800, b'\n');
    set_byte(text, 1801, b'0');
}

// Any symbol but 1 is told as `0`: `b'0' + symbol` would ask for a bound on what is read.
fn character(symbol: u8) -> u8 {
    if symbol == 1 { b'1' } else { b'0' }
}

// Exactly these bytes, and zeros behind them.
fn is_printed(output: Output, expected: &[u8]) -> bool {
    output.size == expected.len() && are_then(&output.bytes, expected, 0)
}
