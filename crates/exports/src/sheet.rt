// Sheets: reading the one at the end of lent bytes, and writing one.
ghost use Rattle.std.specs.Prelude.{◌≡◌, ◌&&◌, eqb, ltb};
ghost use Rattle.words.specs.Refusal.{answer_of};
ghost use Rattle.sheets.specs.List.{NUMBERS};
ghost use Rattle.sheets.specs.Sheet.{sheet_read, sheet_before};
ghost use Rattle.sheets.specs.Write.{sheet_written, size_written, written_bytes};
ghost use Rattle.exports.specs.Code.{HALF, code_of};
ghost use Rattle.exports.specs.Calls.{sheet_call, sheet_call_numbers};

use super::code::{HALF, refusal_code};
use sheets::list::LISTED;
use sheets::sheet::read_sheet;
use sheets::write::write_sheet;
use words::refusal::Rule;

// Each length of a part of the bytes is less than 2^32, and the numbers are as many as they must be.
// The lengths are those of this call: a function for all calls would take each as a parameter.
fn has_lengths(bytes: usize, numbers: usize) -> bool
    ensures { result ≡ (ltb bytes HALF && eqb numbers NUMBERS) }
{
    (bytes as u64) < HALF && numbers == LISTED
}

// Reads the sheet at the end of the bytes into 34 numbers, toi's first, and says how many bytes stand before it. Refused 1 (also for 2^32
// bytes or more), 10, then line by line 11 12 13 14, then 15.
// The C interface: see `l1c_read_time`.
pub fn l1c_read_sheet(bytes: &[u8], contents: &mut [i64]) -> u64
    ensures { (result ≡ code_of (sheet_call bytes.now contents.old) (sheet_before (sheet_read bytes.now)))
        × (contents.new ≡ sheet_call_numbers bytes.now contents.old) }
{
    if !has_lengths(bytes.len(), contents.len()) {
        return refusal_code(Rule::Length.at(0));
    }
    match read_sheet(bytes) {
        Ok(sheet) => {
            contents.copy_from_slice(&sheet.numbers);
            sheet.before as u64
        }
        Err(refusal) => refusal_code(refusal),
    }
}

// Writes the sheet of 34 numbers, toi's first, from the first lent byte on, and says its length. Refused 1, 3, 6, 16.
pub fn l1c_write_sheet(contents: &[i64], out: &mut [u8]) -> u64
    ensures { (result ≡ code_of (answer_of (sheet_written contents.now out.old)) (size_written (sheet_written contents.now out.old)))
        × (out.new ≡ written_bytes contents.now out.old) }
{
    match write_sheet(contents, out) {
        Ok(size) => size as u64,
        Err(refusal) => refusal_code(refusal),
    }
}
