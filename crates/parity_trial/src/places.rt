// The functions `place_in_order` and `place_before` of `parity::order`.
use parity::order::{place_before, place_in_order};
use show::{expected, refused};

fn known(text: &[u8], index: usize, at: usize) {
    expected(text, place_in_order(index) == Ok(at));
    expected(b"  and stood there", place_before(at) == Ok(index));
}

fn nowhere(text: &[u8], index: usize) {
    refused(text, &place_in_order(index), 1, 0);
    refused(b"  and place_before of it too", &place_before(index), 1, 0);
}

pub(crate) fn first() {
    known(b"the symbol at 0 leaves at 0", 0, 0);
    known(b"the symbol at 1 leaves at 38", 1, 38);
    known(b"the symbol at 45 leaves at 1710", 45, 1710);
    known(b"the symbol at 46 leaves at 1", 46, 1);
}

pub(crate) fn last() {
    known(b"the symbol at 1199 leaves at 140", 1199, 140);
    known(b"the symbol at 1200 leaves at 178", 1200, 178);
    known(b"the symbol at 1747 leaves at 1747", 1747, 1747);
}

pub(crate) fn past_the_end() {
    nowhere(
        b"place_in_order of 1748 is refused 1 at 0, with 0 beside it",
        1748,
    );
    nowhere(
        b"place_in_order of the largest number is refused 1 at 0, with 0 beside it",
        usize::MAX,
    );
}
