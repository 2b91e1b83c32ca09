// The library for other programs, as the functions that include/l1c.h declares. Each calls the one of the same name of `exports` and meets
// that one's contract.
#![tactic(auto)]

ghost use Rattle.std.specs.Prelude.{◌≡◌};
ghost use Rattle.words.specs.Refusal.{answer_of};
ghost use Rattle.frames.specs.Read.{frame_read, frame_corrected};
ghost use Rattle.sheets.specs.Sheet.{sheet_read, sheet_before};
ghost use Rattle.sheets.specs.Write.{sheet_written, size_written, written_bytes};
ghost use Rattle.exports.specs.Code.{code_of};
ghost use Rattle.exports.specs.Calls.{build_call, build_call_frame, read_call, read_call_numbers, read_call_page, time_call, time_call_time, subframe2_call, subframe2_call_counts, subframe3_call, subframe3_call_page, sheet_call, sheet_call_numbers};

use exports::{frame, sheet};

// Builds the frame of 34 numbers, toi's first, and 250 page bits into 1800 bytes. Refused 1, 2 (page bits), 3, 6, 9.
#[unsafe(no_mangle)]
pub extern "C" fn l1c_build(contents: &[i64], page: &[u8], frame: &mut [u8]) -> u64
    ensures { (result ≡ code_of (build_call contents.now page.now frame.old) 0)
        × (frame.new ≡ build_call_frame contents.now page.now frame.old) }
{
    frame::l1c_build(contents, page, frame)
}

// Reads a frame into 34 numbers, toi's first, and 250 page bits, and says how many time symbols were corrected. Refused 1, 2, then 3, then
// 4 5 6, then 7 8 9.
#[unsafe(no_mangle)]
pub extern "C" fn l1c_read(frame: &[u8], contents: &mut [i64], page: &mut [u8]) -> u64
    ensures { (result ≡ code_of (read_call frame.now contents.old page.old) (frame_corrected (frame_read frame.now)))
        × (contents.new ≡ read_call_numbers frame.now contents.old page.old)
        × (page.new ≡ read_call_page frame.now contents.old page.old) }
{
    frame::l1c_read(frame, contents, page)
}

// Reads the time alone: toi, then how many symbols were corrected. Refused 1, 2, then 3.
#[unsafe(no_mangle)]
pub extern "C" fn l1c_read_time(frame: &[u8], time: &mut [u32]) -> u64
    ensures { (result ≡ code_of (time_call frame.now time.old) 0)
        × (time.new ≡ time_call_time frame.now time.old) }
{
    frame::l1c_read_time(frame, time)
}

// Reads the 33 counts of subframe 2 alone. Refused 1, 2, then 4 5 6.
#[unsafe(no_mangle)]
pub extern "C" fn l1c_read_subframe2(frame: &[u8], counts: &mut [i64]) -> u64
    ensures { (result ≡ code_of (subframe2_call frame.now counts.old) 0)
        × (counts.new ≡ subframe2_call_counts frame.now counts.old) }
{
    frame::l1c_read_subframe2(frame, counts)
}

// Reads the 250 page bits of subframe 3 alone. Refused 1, 2, then 7 8 9.
#[unsafe(no_mangle)]
pub extern "C" fn l1c_read_subframe3(frame: &[u8], page: &mut [u8]) -> u64
    ensures { (result ≡ code_of (subframe3_call frame.now page.old) 0)
        × (page.new ≡ subframe3_call_page frame.now page.old) }
{
    frame::l1c_read_subframe3(frame, page)
}

// Reads the sheet at the end of the bytes into 34 numbers, toi's first, and says how many bytes stand before it. Refused 1 (also for 2^32
// bytes or more), 10, then line by line 11 12 13 14, then 15.
#[unsafe(no_mangle)]
pub extern "C" fn l1c_read_sheet(bytes: &[u8], contents: &mut [i64]) -> u64
    ensures { (result ≡ code_of (sheet_call bytes.now contents.old) (sheet_before (sheet_read bytes.now)))
        × (contents.new ≡ sheet_call_numbers bytes.now contents.old) }
{
    sheet::l1c_read_sheet(bytes, contents)
}

// Writes the sheet of 34 numbers, toi's first, from the first lent byte on, and says its length. Refused 1, 3, 6, 16.
#[unsafe(no_mangle)]
pub extern "C" fn l1c_write_sheet(contents: &[i64], out: &mut [u8]) -> u64
    ensures { (result ≡ code_of (answer_of (sheet_written contents.now out.old)) (size_written (sheet_written contents.now out.old)))
        × (out.new ≡ written_bytes contents.now out.old) }
{
    sheet::l1c_write_sheet(contents, out)
}
