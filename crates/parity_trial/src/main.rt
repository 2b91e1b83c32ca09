// Calls every public function of `tables` and `parity` with good, empty, short, long and garbage-filled slices and with extreme
// numbers, and prints a line for each: what is expected, and whether it is so.
#![tactic(auto)]

mod equations;
mod fill;
mod into_order;
mod matrix;
mod out_of_order;
mod places;
mod solve;

fn main() {
    of_tables();
    of_solving();
    of_equations();
    of_filling();
    of_places();
    of_order();
    of_taking_apart();
}

fn of_tables() {
    matrix::counts();
    matrix::empty_ones();
    matrix::last_rows();
    matrix::no_bits();
    matrix::first_columns();
    matrix::cut_short();
}

fn of_solving() {
    solve::nothing();
    solve::known();
    solve::back();
}

fn of_equations() {
    equations::met();
    equations::lengths();
    equations::no_bits();
    equations::single_symbols();
    equations::last();
}

fn of_filling() {
    fill::zeros();
    fill::ones();
    fill::lengths();
    fill::no_bits();
    fill::parity_no_bits();
}

fn of_places() {
    places::first();
    places::last();
    places::past_the_end();
}

fn of_order() {
    into_order::all_the_same();
    into_order::single_ones();
    into_order::lengths_of_blocks();
    into_order::lengths_of_symbols();
    into_order::no_bits();
}

fn of_taking_apart() {
    out_of_order::lengths_of_symbols();
    out_of_order::lengths_of_blocks();
    out_of_order::no_bits();
}
