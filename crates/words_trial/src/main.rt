// Calls every public function of `words` with empty, short, long and garbage-filled slices and with extreme numbers, and with
// the known values of time words and check bits, and prints a line for each: what is expected, and whether it is so.
#![tactic(auto)]

mod bits;
mod crc;
mod refusal;
mod time;

fn main() {
    refusal::numbers();
    refusal::refusing();
    bits::finding();
    bits::taking();
    bits::taking_signed();
    bits::putting();
    bits::putting_wide();
    bits::putting_signed();
    bits::magnitudes();
    bits::not_copying();
    bits::copying();
    bits::copying_nothing();
    crc::known();
    crc::extreme();
    crc::refusing();
    crc::putting();
    time::known();
    time::writing();
    time::writing_elsewhere();
    time::reading();
    time::turned();
    time::no_times();
}
