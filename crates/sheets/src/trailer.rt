// The trailer of a sheet.
ghost use Rattle.std.specs.Prelude.{◌≡◌, ◌++◌, ◌≤◌, ◌+◌, length};
ghost use Rattle.sheets.specs.Trailer.{TRAILER_BYTES, start_of, trailer_text};
ghost use Rattle.sheets.specs.Laws.Steps.{count_read, start_read};

use super::number::read_digits;
use super::text::{SHEET_BYTES, Text};

// What eleven bytes count, where they are a trailer.
fn read_count(trailer: &[u8]) -> Option<u64>
    requires { length trailer.now ≡ TRAILER_BYTES }
    ensures { result ≡ count_read trailer.now }
{
    if !trailer.starts_with(b"back ") || trailer[10] != b'\n' {
        return None;
    }
    read_digits(&trailer[5..10])
}

// Where the sheet at the end of the bytes begins, where they end with a trailer that is not over 4096 and does not point before the first byte.
pub(crate) fn find_start(bytes: &[u8]) -> Option<usize>
    ensures { result ≡ start_read bytes.now }
{
    let place = bytes.len().checked_sub(11)?;
    let count = read_count(&bytes[place..])?;
    let too_many = 4096 < count;
    if too_many {
        return None;
    }
    place.checked_sub(count as usize)
}

// The same, and how many bytes there are, where there is no such trailer.
// Not an Option: its clause, by `start_of`, promises the number of bytes.
pub fn sheet_start(bytes: &[u8]) -> usize
    ensures { result ≡ start_of bytes.now }
{
    find_start(bytes).unwrap_or(bytes.len())
}

// Puts the trailer behind the lines of a sheet.
// Five digits with leading zeros: without heap, `{:05}` has nowhere to be written that a proof knows.
pub(crate) fn put_trailer(sheet: &mut Text)
    requires { length sheet.old + TRAILER_BYTES ≤ SHEET_BYTES }
    ensures { sheet.new ≡ sheet.old ++ trailer_text (length sheet.old) }
{
    let count = sheet.len();
    let trailer = [
        b'b',
        b'a',
        b'c',
        b'k',
        b' ',
        b'0' + (count / 10000 % 10) as u8,
        b'0' + (count / 1000 % 10) as u8,
        b'0' + (count / 100 % 10) as u8,
        b'0' + (count / 10 % 10) as u8,
        b'0' + (count % 10) as u8,
        b'\n',
    ];
    sheet.put(&trailer);
}
