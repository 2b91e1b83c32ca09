// The bench program: reads a page line and a sheet from standard input, and prints the frame or the refusal.
#![tactic(auto)]

use programs::building::{MOST_INPUT, print_frame};

// Of input that is too long, one byte more shows that it is.
// `readback` is the same but for its function and its room: one function of both would take them, for the few lines of each.
fn main() {
    let mut input = [0u8; MOST_INPUT + 1];
    let count = io::read_full(0, &mut input);
    let output = print_frame(&input[..count]);
    io::write_all(1, &output.bytes[..output.size]);
}
