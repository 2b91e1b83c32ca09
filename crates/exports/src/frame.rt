// Frames: building them, and reading them whole or in part.
ghost use Rattle.std.specs.Prelude.{◌≡◌, ◌&&◌, eqb};
ghost use Rattle.fields.specs.Pages.{PAGE_BITS};
ghost use Rattle.frames.specs.Read.{frame_read, frame_corrected};
ghost use Rattle.sheets.specs.List.{NUMBERS};
ghost use Rattle.exports.specs.Code.{code_of};
ghost use Rattle.exports.specs.Calls.{build_call, build_call_frame, read_call, read_call_numbers, read_call_page, time_call, time_call_time, subframe2_call, subframe2_call_counts, subframe3_call, subframe3_call_page};

use super::code::refusal_code;
use super::lent::{put_numbers, toi_of};
use frames::build::build;
use frames::read::{read, read_subframe2, read_subframe3, read_time};
use sheets::list::LISTED;
use words::refusal::Rule;

// Builds the frame of 34 numbers, toi's first, and 250 page bits into 1800 bytes. Refused 1, 2 (page bits), 3, 6, 9.
pub fn l1c_build(contents: &[i64], page: &[u8], frame: &mut [u8]) -> u64
    ensures { (result ≡ code_of (build_call contents.now page.now frame.old) 0)
        × (frame.new ≡ build_call_frame contents.now page.now frame.old) }
{
    if contents.len() != LISTED {
        return refusal_code(Rule::Length.at(0));
    }
    let toi = toi_of(contents[0]);
    match build(toi, &contents[1..], page, frame) {
        Ok(()) => 0,
        Err(refusal) => refusal_code(refusal),
    }
}

// The numbers and the page bits are as many as they must be.
// The lengths are those of this call: a function for all calls would take each as a parameter.
fn has_room(numbers: usize, page: usize) -> bool
    ensures { result ≡ (eqb numbers NUMBERS && eqb page PAGE_BITS) }
{
    numbers == LISTED && page == 250
}

// Reads a frame into 34 numbers, toi's first, and 250 page bits, and says how many time symbols were corrected. Refused 1, 2, then 3, then
// 4 5 6, then 7 8 9.
pub fn l1c_read(frame: &[u8], contents: &mut [i64], page: &mut [u8]) -> u64
    ensures { (result ≡ code_of (read_call frame.now contents.old page.old) (frame_corrected (frame_read frame.now)))
        × (contents.new ≡ read_call_numbers frame.now contents.old page.old)
        × (page.new ≡ read_call_page frame.now contents.old page.old) }
{
    if !has_room(contents.len(), page.len()) {
        return refusal_code(Rule::Length.at(0));
    }
    match read(frame) {
        Ok(found) => {
            put_numbers(found.toi, &found.counts, contents);
            page.copy_from_slice(&found.page);
            u64::from(found.corrected)
        }
        Err(refusal) => refusal_code(refusal),
    }
}

// Reads the time alone: toi, then how many symbols were corrected. Refused 1, 2, then 3.
// The C interface: the calls that read hand C other values each, and say by a number what came of it.
pub fn l1c_read_time(frame: &[u8], time: &mut [u32]) -> u64
    ensures { (result ≡ code_of (time_call frame.now time.old) 0)
        × (time.new ≡ time_call_time frame.now time.old) }
{
    if time.len() != 2 {
        return refusal_code(Rule::Length.at(0));
    }
    match read_time(frame) {
        Ok(found) => {
            time.copy_from_slice(&[u32::from(found.toi), found.corrected]);
            0
        }
        Err(refusal) => refusal_code(refusal),
    }
}

// Reads the 33 counts of subframe 2 alone. Refused 1, 2, then 4 5 6.
pub fn l1c_read_subframe2(frame: &[u8], counts: &mut [i64]) -> u64
    ensures { (result ≡ code_of (subframe2_call frame.now counts.old) 0)
        × (counts.new ≡ subframe2_call_counts frame.now counts.old) }
{
    if counts.len() != 33 {
        return refusal_code(Rule::Length.at(0));
    }
    match read_subframe2(frame) {
        Ok(found) => {
            counts.copy_from_slice(&found);
            0
        }
        Err(refusal) => refusal_code(refusal),
    }
}

// Reads the 250 page bits of subframe 3 alone. Refused 1, 2, then 7 8 9.
pub fn l1c_read_subframe3(frame: &[u8], page: &mut [u8]) -> u64
    ensures { (result ≡ code_of (subframe3_call frame.now page.old) 0)
        × (page.new ≡ subframe3_call_page frame.now page.old) }
{
    let unfit = page.len() != 250;
    if unfit {
        return refusal_code(Rule::Length.at(0));
    }
    match read_subframe3(frame) {
        Ok(found) => {
            page.copy_from_slice(&found);
            0
        }
        Err(refusal) => refusal_code(refusal),
    }
}
