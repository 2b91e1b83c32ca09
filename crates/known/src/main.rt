// Runs the known results of document 01 through the library, and prints a line for each: document 01's words, what came out, what is
// expected, and `ok` or `WRONG`, with ` | ` between them. The last line counts them.
#![tactic(auto)]

mod checks;
mod counts;
mod order;
mod printed;
mod sheet;
mod tally;
mod text;
mod times;

fn main() {
    let mut tally = tally::Tally::default();
    times::words_of(&mut tally);
    times::read(&mut tally);
    checks::run(&mut tally);
    order::of_subframe_2(&mut tally);
    order::of_subframe_3(&mut tally);
    counts::judged(&mut tally);
    counts::delays(&mut tally);
    sheet::zeros(&mut tally);
    printed::frame(&mut tally);
    printed::misspelt(&mut tally);
    printed::twice(&mut tally);
    sheet::refused(&mut tally);
    tally.print();
}
