// Calls the public functions of `sheets` with good, empty, short, long and garbage-filled slices and with extreme numbers, and prints a
// line for each: what is expected, and whether it is so. Of the methods of `Walk` it calls `next`; `walk_back`, which it calls too, looks.
#![tactic(auto)]

mod lines;
mod sheet;
mod trailer;
mod walk;
mod write;
mod zeros;

fn main() {
    of_trailers();
    of_reading();
    of_writing();
    of_walking();
}

fn of_trailers() {
    trailer::short();
    trailer::malformed();
    trailer::counts();
    trailer::large_counts();
}

fn of_reading() {
    sheet::no_trailer();
    sheet::known();
    sheet::behind();
    lines::no_lines();
    lines::names();
    lines::numbers();
}

fn of_writing() {
    write::zero_sheet();
    write::rooms();
    write::numbers_refused();
    write::extreme();
    write::read_again();
}

fn of_walking() {
    walk::nothing();
    walk::two_sheets();
    walk::inside();
    walk::past_end();
}
