// Calls every public function of `frames` with good, empty, short, long and garbage-filled slices and with extreme numbers, and prints a
// line for each: what is expected, and whether it is so.
#![tactic(auto)]

mod build;
mod read;
mod read_alone;

fn main() {
    of_building();
    of_reading();
}

fn of_building() {
    build::zeros();
    build::lengths();
    build::no_bits();
    build::times();
    build::known();
    build::extreme();
    build::pages();
}

fn of_reading() {
    read::lengths();
    read::no_bits();
    read::zeros();
    read::built();
    read_alone::turned_time();
    read_alone::turned_data();
    read_alone::checks();
    read_alone::ranges();
}
