// The order of symbols.
use super::tally::Tally;
use super::text::{Text, text_of};
use parity::order::place_in_order;

fn leaves_at(index: usize) -> Text {
    match place_in_order(index) {
        Ok(place) => text_of(place),
        Err(refusal) => text_of(refusal),
    }
}

pub(crate) fn of_subframe_2(tally: &mut Tally) {
    tally.add(b"order: 0 to 0", leaves_at(0), b"0");
    tally.add(b"order: 1 to 38", leaves_at(1), b"38");
    tally.add(b"order: 45 to 1710", leaves_at(45), b"1710");
    tally.add(b"order: 46 to 1", leaves_at(46), b"1");
    tally.add(b"order: 1199 to 140", leaves_at(1199), b"140");
}

pub(crate) fn of_subframe_3(tally: &mut Tally) {
    tally.add(b"order: 1200 to 178", leaves_at(1200), b"178");
    tally.add(b"order: 1747 to 1747", leaves_at(1747), b"1747");
}
