// Sheets.
use super::tally::Tally;
use super::text::{Text, answer_text, push_bytes, text_of};
use sheets::sheet::read_sheet;
use sheets::write::write_sheet;

// How many bytes the lines of the sheet with every number 0 have, and its trailer.
fn zeros_text() -> Text {
    let numbers = [0i64; 34];
    let mut sheet = [0u8; 243];
    match write_sheet(&numbers, &mut sheet) {
        Ok(size) => lines_text(&sheet, size),
        Err(refusal) => text_of(refusal),
    }
}

fn lines_text(sheet: &[u8], size: usize) -> Text {
    let lines = size.saturating_sub(11);
    let mut text = text_of(format_args!("{lines} bytes of lines and "));
    push_bytes(&mut text, sheet.get(lines..size).unwrap_or(b""));
    text
}

pub(crate) fn zeros(tally: &mut Tally) {
    tally.add(
        b"the sheet with every number 0, in list order (toi, wn, itow and so on), has 232 bytes of lines and the trailer `back 00232`",
        zeros_text(),
        b"232 bytes of lines and back 00232\n",
    );
}

fn sheet_text(bytes: &[u8]) -> Text {
    answer_text(&read_sheet(bytes))
}

pub(crate) fn refused(tally: &mut Tally) {
    tally.add(
        b"an empty buffer as a sheet: 10",
        sheet_text(b""),
        b"refused 10 at 0",
    );
    tally.add(
        b"`back 00000` and byte 10 alone: 15 at 1",
        sheet_text(b"back 00000\n"),
        b"refused 15 at 1",
    );
}
