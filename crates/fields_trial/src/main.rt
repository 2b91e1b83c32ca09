// Calls every public function of `fields` and `clock` with good, empty, short, long and garbage-filled slices and with extreme numbers, and
// prints a line for each: what is expected, and whether it is so.
#![tactic(auto)]

mod clock_of;
mod pages;
mod places;
mod put_pages;
mod read_fields;
mod table;
mod terms;
mod write_fields;

fn main() {
    of_tables();
    of_subframe2();
    of_clock();
    of_pages();
}

fn of_tables() {
    places::of_subframe2();
    places::of_pages();
    table::sizes();
    table::rows_of_subframe2();
    table::rows_of_pages();
    table::no_rows();
    table::ranges();
    table::odd_ranges();
    table::delays();
}

fn of_subframe2() {
    read_fields::no_fields_at_all();
    read_fields::lengths();
    read_fields::no_bits();
    read_fields::known();
    read_fields::reserved();
    write_fields::lengths();
    write_fields::known();
    write_fields::extreme();
    write_fields::negative();
    write_fields::and_back();
}

fn of_clock() {
    clock_of::known();
    clock_of::ends();
    clock_of::zeros();
    clock_of::too_large();
    terms::known();
    terms::no_numbers();
    terms::no_counts();
    terms::each_by_itself();
}

fn of_pages() {
    pages::lengths();
    pages::no_bits();
    pages::ranges();
    pages::taken_one();
    pages::taken_six();
    pages::taken_bare();
    pages::not_taken();
    put_pages::lengths();
    put_pages::no_bits();
    put_pages::numbers();
    put_pages::ranges();
    put_pages::not_looked_at();
}
