// The way back: reads a frame from standard input, and prints the page line and the sheet that the bench program would take.
#![tactic(auto)]

use programs::FRAME;
use programs::reading::print_sheet;

// Of input longer than a frame's characters and a newline, one byte more shows that it is.
// `bench` is the same but for its function and its room: one function of both would take them, for the few lines of each.
fn main() {
    let mut input = [0u8; FRAME + 2];
    let count = io::read_full(0, &mut input);
    let output = print_sheet(&input[..count]);
    io::write_all(1, &output.bytes[..output.size]);
}
