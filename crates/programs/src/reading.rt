// The way back: a frame in, the page line and the sheet out that the bench program would take.
ghost use Rattle.std.specs.Prelude.{◌≡◌, ◌∷◌, ◌≤◌, pos};
ghost use Rattle.words.specs.Refusal.{in_turn, given_by};
ghost use Rattle.frames.specs.Frame.{GoodContents};
ghost use Rattle.frames.specs.Build.{contents_of};
ghost use Rattle.frames.specs.Read.{frame_read};
ghost use Rattle.programs.specs.Symbols.{symbols_in};
ghost use Rattle.programs.specs.Output.{OUTPUT_BYTES, output_of};
ghost use Rattle.programs.specs.Reading.{frame_line, frame_line_answer, contents_text, printed_sheet};

use super::FRAME;
use super::output::{Output, refusal_output};
use super::symbols::take_symbols;
use frames::read::{Frame, read};
use words::refusal::{Refusal, Rule};

// The symbols of the input, all but its newline. Refused 1 at 0 for another length or without its newline, 2 at the first character that
// is neither `0` nor `1`.
fn take_frame_line(input: &[u8]) -> Result<[u8; FRAME], Refusal>
    ensures { result ≡ given_by (frame_line_answer input.now) (symbols_in (frame_line input.now)) }
{
    let [line @ .., b'\n'] = input else {
        return Err(Rule::Length.at(0));
    };
    take_symbols(line)
}

// The frame that the symbols of the input stand for, or the refusal of reading them.
fn read_input(input: &[u8]) -> Result<Frame, Refusal>
    ensures { result ≡ in_turn (frame_line_answer input.now) (frame_read (symbols_in (frame_line input.now))) }
{
    let symbols = take_frame_line(input)?;
    read(&symbols)
}

// The numbers of a sheet: the time, then the counts.
fn numbers_of(toi: u16, counts: [i64; 33]) -> [i64; 34]
    ensures { result ≡ pos toi ∷ counts }
{
    let mut numbers = [0i64; 34];
    numbers[0] = i64::from(toi);
    numbers[1..].copy_from_slice(&counts);
    numbers
}

// How many symbols were corrected, the page line and the sheet.
fn contents_output(frame: Frame) -> Output
    requires { (frame.corrected ≤ 9) × GoodContents (contents_of frame.toi frame.counts frame.page) }
    ensures { result ≡ output_of (contents_text (contents_of frame.toi frame.counts frame.page) frame.corrected) }
{
    let mut output = Output::new();
    output.put(b"corrected ");
    output.put_number(u64::from(frame.corrected));
    output.put(b"\n");
    output.put_line(&frame.page);
    let numbers = numbers_of(frame.toi, frame.counts);
    output.put_sheet(&numbers);
    output
}

// What the reading program prints for its input: how many time symbols were corrected, then the page line and the sheet of the frame; or
// `refused N at P`.
pub fn print_sheet(input: &[u8]) -> Output
    ensures { (result ≡ output_of (printed_sheet input.now)) × (result.size ≤ OUTPUT_BYTES) }
{
    match read_input(input) {
        Ok(frame) => contents_output(frame),
        Err(refusal) => refusal_output(refusal),
    }
}
