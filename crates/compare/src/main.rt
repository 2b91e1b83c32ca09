// Runs the cases that the second program made, one to a line of the input, through the library. It prints how many of each kind
// agree, and the number of each line that does not.
#![tactic(auto)]

mod base;
mod build_cases;
mod bytes;
mod cases;
mod clock_cases;
mod contents;
mod input;
mod kinds;
mod page_cases;
mod parity_cases;
mod program_cases;
mod read_cases;
mod records;
mod sheet_cases;
mod tally;
mod texts;
mod told;
mod walk_cases;

use tally::Tally;

fn main() {
    let mut tally = Tally::new();
    cases::run_all(&mut tally);
    tally.print();
}
