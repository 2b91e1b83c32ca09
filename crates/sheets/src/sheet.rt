// Reading the sheet at the end of lent bytes.
ghost use Rattle.std.specs.Prelude.{◌≡◌, map, pos, is_none, unwrap_or};
ghost use Rattle.std.specs.List.{position};
ghost use Rattle.sheets.specs.Lines.{numbers_in, lines_in, body_answer};
ghost use Rattle.sheets.specs.Sheet.{sheet_by, sheet_read, before_sheet};
ghost use Rattle.sheets.specs.Laws.Steps.{finished_sheet};

use super::lines::{Found, judge_line};
use super::list::LISTED;
use super::trailer::find_start;
use words::refusal::{Refusal, Rule};

// What reading a sheet gives: its numbers, toi's first, and how many bytes stand before it.
#[derive(Clone, Copy, PartialEq, Eq)]
pub struct Sheet {
    pub numbers: [i64; 34],
    pub before: usize,
}

// The position of the first name without a number.
fn first_missing(found: &Found) -> Option<usize>
    ensures { result ≡ position is_none found.now }
{
    found.iter().position(|number| number.is_none())
}

// The numbers, with 0 for a name without one.
fn numbers_found(found: &Found) -> [i64; LISTED]
    ensures { result ≡ map (λ number. unwrap_or number (pos 0)) found.now }
{
    let mut numbers = [0i64; LISTED];
    // by place: of a slice that is written by `zip` a proof knows no element, and a proof of `found.map(..)` did not close
    for (k, number) in found.iter().enumerate() {
        numbers[k] = number.unwrap_or(0);
    }
    numbers
}

// After the last line: the numbers, or the first name that is missing.
fn finished_sheet(found: &Found, before: usize) -> Result<Sheet, Refusal>
    ensures { result ≡ finished_sheet found.now before }
{
    if let Some(missing) = first_missing(found) {
        return Err(Rule::NameMissing.at(missing + 1));
    }
    let numbers = numbers_found(found);
    Ok(Sheet { numbers, before })
}

// The lines of a sheet that has `before` bytes before it.
fn read_lines(lines: &[u8], before: usize) -> Result<Sheet, Refusal>
    ensures { result ≡ sheet_by (body_answer lines.now) (numbers_in (lines_in lines.now)) before }
{
    let mut at: usize = 0;
    let mut found: Found = [None; LISTED];
    for ended in lines.split_inclusive(|byte| *byte == b'\n') {
        let line = ended.strip_suffix(b"\n").ok_or(Rule::Line.at(at))?;
        let (k, number) = judge_line(line, &found).map_err(|rule| rule.at(at))?;
        found[k] = Some(number);
        at += ended.len();
    }
    finished_sheet(&found, before)
}

// The sheet at the end of the bytes; refused 10 at 0, then line by line 11, 12, 13, 14 at the line's first byte, counted from the sheet's
// first byte, then 15 at the position of the first missing name.
pub fn read_sheet(bytes: &[u8]) -> Result<Sheet, Refusal>
    ensures { result ≡ sheet_read bytes.now }
{
    let start = find_start(bytes).ok_or(Rule::Trailer.at(0))?;
    read_lines(&bytes[start..bytes.len() - 11], start)
}

// The part of the bytes before the sheet at their end; empty, where it is refused.
pub fn before_sheet<'a>(bytes: &'a [u8]) -> &'a [u8]
    ensures { (result.ref_ptr ≡ bytes.entry.ref_ptr) × (result.now ≡ before_sheet bytes.now) }
{
    match read_sheet(bytes) {
        Ok(sheet) => &bytes[..sheet.before],
        Err(_) => &bytes[..0],
    }
}
