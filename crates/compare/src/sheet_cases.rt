// The cases of sheets that are written, which set the base text, and of sheets that are read.
use super::base::Base;
use super::bytes::{GARBAGE, are_then, copy_first, first_bytes, first_told};
use super::contents::read_counts;
use super::input::read_number;
use super::texts::read_text;
use super::told::{DONE, Told, read_told, told_or_zeros};
use sheets::sheet::{Sheet, before_sheet, read_sheet};
use sheets::trailer::sheet_start;
use sheets::write::write_sheet;

// ---- writing

// A sheet that is told to be written becomes the base text.
pub(crate) fn sheet_written_agrees(base: &mut Base, text: &mut [u8]) -> bool {
    let mut numbers = [0i64; 34];
    let room = read_number(4, b' ');
    let are_numbers = read_counts(&mut numbers);
    let told = read_told(b' ');
    let size = read_number(4, b' ');
    let count = read_text(&base.text, text, b'\n');
    let expected = first_told(text, count);
    if told == DONE {
        base.numbers = numbers;
        copy_first(expected, &mut base.text);
    }
    are_numbers && count == size && writing_agrees(&numbers, room, told, expected)
}

// Behind the sheet, or everywhere where it is refused, what was lent has to stay as it was.
// What is told, the room and the numbers come as they are read from the line; a type of them would be no plainer.
fn writing_agrees(numbers: &[i64; 34], room: Option<usize>, told: Told, expected: &[u8]) -> bool {
    let mut out = [GARBAGE; 5000];
    first_written_agree(numbers, &mut out, room, told, expected.len())
        && are_then(&out, expected, GARBAGE)
}

// Into the first `room` bytes.
fn first_written_agree(
    numbers: &[i64; 34],
    out: &mut [u8],
    room: Option<usize>,
    told: Told,
    size: usize,
) -> bool {
    match room.and_then(|room| out.get_mut(..room)) {
        Some(lent) => told_or_zeros(told, size, 0) == Some(write_sheet(numbers, lent)),
        None => false,
    }
}

// ---- reading

pub(crate) fn sheet_read_agrees(base: &Base, text: &mut [u8]) -> bool {
    let count = read_text(&base.text, text, b' ');
    let told = read_told(b' ');
    let start = read_number(4, b'\n');
    match (count, start) {
        (Some(count), Some(start)) => {
            reading_agrees(first_bytes(text, count), told, start, &base.numbers)
        }
        _ => false,
    }
}

fn reading_agrees(bytes: &[u8], told: Told, start: usize, numbers: &[i64; 34]) -> bool {
    let is_told = match told {
        Some(Ok(())) => is_read(bytes, start, numbers) && is_read_again(numbers),
        Some(Err(refusal)) => read_sheet(bytes) == Err(refusal) && before_sheet(bytes).is_empty(),
        None => false,
    };
    is_told && sheet_start(bytes) == start
}

fn is_read(bytes: &[u8], before: usize, numbers: &[i64; 34]) -> bool {
    let sheet = Sheet {
        numbers: *numbers,
        before,
    };
    read_sheet(bytes) == Ok(sheet) && before_sheet(bytes) == first_bytes(bytes, before)
}

// The numbers written, and read again.
fn is_read_again(numbers: &[i64; 34]) -> bool {
    let mut sheet = [GARBAGE; 800];
    match write_sheet(numbers, &mut sheet) {
        Ok(size) => is_read(first_bytes(&sheet, size), 0, numbers),
        Err(_) => false,
    }
}
