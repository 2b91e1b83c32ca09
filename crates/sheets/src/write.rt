// Writing a sheet.
ghost use Rattle.std.specs.Prelude.{◌≡◌, [], ◌∷◌, ◌++◌, ◌+◌, ◌≤◌, length};
ghost use Rattle.sheets.specs.Text.{LINE_END, ended_by};
ghost use Rattle.sheets.specs.List.{NUMBERS, sheet_names};
ghost use Rattle.sheets.specs.Number.{decimal};
ghost use Rattle.sheets.specs.Sheet.{line_text, line_texts};
ghost use Rattle.sheets.specs.Write.{numbers_answer, sheet_written, written_bytes, text_written, text_bytes};

use super::list::{LISTED, NAMES, listed_field};
use super::number::Digits;
use super::text::{SHEET_BYTES, Text};
use super::trailer::put_trailer;
use fields::counts::in_range;
use fields::subframe2::judge_counts;
use words::refusal::{Refusal, Rule};

// ---- any text

// Writes a text from the first lent byte on, and gives its length; the bytes behind it stay. Refused 16 at 0 where the text has more bytes
// than are lent.
// This and `write_decimal` are public and write into lent bytes: there is no heap for a `String`.
#[tactic(auto, unfolding(crate::specs::Write::text_written, crate::specs::Write::text_bytes))]
pub fn write_text(text: &[u8], out: &mut [u8]) -> Result<usize, Refusal>
    ensures { (result ≡ text_written text.now out.old) × (out.new ≡ text_bytes text.now out.old) }
{
    if out.len() < text.len() {
        return Err(Rule::Room.at(0));
    }
    out[..text.len()].copy_from_slice(text);
    Ok(text.len())
}

// Writes the digits of a number in the same way.
pub fn write_decimal(number: u64, out: &mut [u8]) -> Result<usize, Refusal>
    ensures { (result ≡ text_written (decimal number) out.old) × (out.new ≡ text_bytes (decimal number) out.old) }
{
    write_text(Digits::of(number).as_slice(), out)
}

// ---- a sheet

// Puts a line with its end behind what is there.
fn put_line(sheet: &mut Text, name: &[u8], number: i64)
    requires { length sheet.old + length (line_text name.now number ++ LINE_END ∷ []) ≤ SHEET_BYTES }
    ensures { sheet.new ≡ sheet.old ++ (line_text name.now number ++ LINE_END ∷ []) }
{
    sheet.put(name);
    sheet.push(b'=');
    sheet.put_number(number);
    sheet.push(b'\n');
}

// Puts a line for each number behind it, with its name of the list.
fn put_lines(sheet: &mut Text, numbers: &[i64])
    requires { (length numbers.now ≡ NUMBERS)
        × (length sheet.old + length (ended_by LINE_END (line_texts sheet_names numbers.now)) ≤ SHEET_BYTES) }
    ensures { sheet.new ≡ sheet.old ++ ended_by LINE_END (line_texts sheet_names numbers.now) }
{
    for (name, number) in NAMES.iter().zip(numbers) {
        put_line(&mut *sheet, name, *number);
    }
}

// Judges the numbers: 3 for a time that is none, then 6.
fn judge_numbers(numbers: &[i64]) -> Result<(), Refusal>
    requires { length numbers.now ≡ NUMBERS }
    ensures { result ≡ numbers_answer numbers.now }
{
    if in_range(listed_field(0), numbers[0]) {
        return judge_counts(&numbers[1..]);
    }
    Err(Rule::Time.at(0))
}

// Writes the sheet of 34 numbers, toi's first, from the first lent byte on, and gives its length; the bytes behind it stay. Refused 1 at 0
// for another number of numbers, 3 at 0 for a time that is none, 6 at the first bit of the first field out of range, 16 at 0 where the sheet
// has more bytes than are lent.
pub fn write_sheet(numbers: &[i64], out: &mut [u8]) -> Result<usize, Refusal>
    ensures { (result ≡ sheet_written numbers.now out.old)
        × (out.new ≡ written_bytes numbers.now out.old) }
{
    if numbers.len() != LISTED {
        return Err(Rule::Length.at(0));
    }
    judge_numbers(numbers)?;
    let mut sheet = Text::new();
    put_lines(&mut sheet, numbers);
    put_trailer(&mut sheet);
    write_text(sheet.as_slice(), out)
}
