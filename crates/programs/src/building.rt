// The bench program: a page line and a sheet in, a frame out.
ghost use Rattle.std.specs.Prelude.{◌≡◌, ◌≤◌, ◌<◌, length, MatchOption};
ghost use Rattle.words.specs.Bits.{IsBits};
ghost use Rattle.words.specs.Refusal.{left_by};
ghost use Rattle.fields.specs.Counts.{AllInRange};
ghost use Rattle.sheets.specs.List.{sheet_fields};
ghost use Rattle.sheets.specs.Text.{LINE_END, index_of};
ghost use Rattle.frames.specs.Frame.{frame_of};
ghost use Rattle.frames.specs.Build.{contents_answer};
ghost use Rattle.programs.specs.Output.{OUTPUT_BYTES, symbol_line, output_of};
ghost use Rattle.programs.specs.Building.{first_line, after_first, carried_contents, sheet_contents, behind_answer, input_answer, input_contents, printed_frame};

use super::output::{Output, refusal_output};
use super::symbols::take_symbols;
use super::{FRAME, PAGE_BITS};
use frames::build::build;
use sheets::sheet::read_sheet;
use sheets::text::find;
use sheets::trailer::sheet_start;
use words::refusal::{Refusal, Rule};

// Longer input is refused.
pub const MOST_INPUT: usize = 8192;

// The first line, without its newline, and the bytes behind it.
fn split_line(input: &[u8]) -> Option<(&[u8], &[u8])>
    ensures { MatchOption result (index_of LINE_END input.now ≡ length input.now)
        (λ parts. (index_of LINE_END input.now < length input.now)
        × (parts.0.now ≡ first_line input.now) × (parts.1.now ≡ after_first input.now)) }
{
    let (line, rest) = input.split_at(find(input, b'\n'));
    let (_, behind) = rest.split_first()?;
    Some((line, behind))
}

// The frame of a sheet's numbers, toi's first, and of a page. Here and below the frame is lent and not handed back, so that it lies once on
// the stack; where it is refused it stays.
// The time by `as`: the clause says that it fits, and `try_from` would answer what cannot be. The bits are those of a page line, judged once.
fn build_numbers(
    numbers: &[i64; 34],
    page: &[u8; PAGE_BITS],
    frame: &mut [u8; FRAME],
) -> Result<(), Refusal>
    requires { AllInRange sheet_fields numbers.now × IsBits page.now }
    ensures { (result ≡ contents_answer (carried_contents numbers.now page.now))
        × (frame.new ≡ left_by (contents_answer (carried_contents numbers.now page.now))
        (frame_of (carried_contents numbers.now page.now)) frame.old) }
{
    let toi = numbers[0] as u16;
    build(toi, &numbers[1..], page, frame)
}

// The frame of the sheet behind the page line. Refused 10 at 0 where it does not begin right there, then as the sheet, then as the frame.
// The bits are those of the page line, judged once.
fn build_behind(
    page: &[u8; PAGE_BITS],
    bytes: &[u8],
    frame: &mut [u8; FRAME],
) -> Result<(), Refusal>
    requires { IsBits page.now }
    ensures { (result ≡ behind_answer page.now bytes.now)
        × (frame.new ≡ left_by (behind_answer page.now bytes.now) (frame_of (sheet_contents page.now bytes.now)) frame.old) }
{
    let start = sheet_start(bytes);
    let elsewhere = start != 0;
    if elsewhere {
        return Err(Rule::Trailer.at(0));
    }
    let sheet = read_sheet(bytes)?;
    build_numbers(&sheet.numbers, page, frame)
}

// The frame of the input, judged in turn: over 8192 bytes, the page line, the sheet, the frame. The page line is refused 1 at 0 where it
// has no newline or another length, 2 at the first character that is neither `0` nor `1`.
fn build_input(input: &[u8], frame: &mut [u8; FRAME]) -> Result<(), Refusal>
    ensures { (result ≡ input_answer input.now)
        × (frame.new ≡ left_by (input_answer input.now) (frame_of (input_contents input.now)) frame.old) }
{
    if MOST_INPUT < input.len() {
        return Err(Rule::Length.at(0));
    }
    let Some((line, behind)) = split_line(input) else {
        return Err(Rule::Length.at(0));
    };
    let page = take_symbols(line)?;
    build_behind(&page, behind, frame)
}

// The symbols of a frame, as characters, and a newline.
// Asked for: that the symbols are bits. `build` alone says so, and a type would be made for this one call.
fn frame_output(frame: &[u8; FRAME]) -> Output
    requires { IsBits frame.now }
    ensures { result ≡ output_of (symbol_line frame.now) }
{
    let mut output = Output::new();
    output.put_line(frame);
    output
}

// What the bench program prints for its input: the 1800 symbols of its frame, or `refused N at P`, and a newline.
pub fn print_frame(input: &[u8]) -> Output
    ensures { (result ≡ output_of (printed_frame input.now)) × (result.size ≤ OUTPUT_BYTES) }
{
    let mut frame = [0u8; FRAME];
    match build_input(input, &mut frame) {
        Ok(()) => frame_output(&frame),
        Err(refusal) => refusal_output(refusal),
    }
}
