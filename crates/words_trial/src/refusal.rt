// The table and the function of `words::refusal`.
use show::{expected, refused};
use words::refusal::{Rule, refuse};

// In the order of document 01's table.
pub(crate) fn numbers() {
    let low = [
        Rule::Length.number(),
        Rule::NotABit.number(),
        Rule::Time.number(),
        Rule::Equation2.number(),
        Rule::Check2.number(),
        Rule::Field2.number(),
        Rule::Equation3.number(),
        Rule::Check3.number(),
    ];
    let high = [
        Rule::Field3.number(),
        Rule::Trailer.number(),
        Rule::Line.number(),
        Rule::Name.number(),
        Rule::NameAgain.number(),
        Rule::Number.number(),
        Rule::NameMissing.number(),
        Rule::Room.number(),
    ];
    expected(
        b"the first eight numbers are 1 to 8",
        low == [1, 2, 3, 4, 5, 6, 7, 8],
    );
    expected(
        b"the other eight are 9 to 16",
        high == [9, 10, 11, 12, 13, 14, 15, 16],
    );
}

pub(crate) fn refusing() {
    refused(b"refuse(0, 0) is that refusal", &refuse::<()>(0, 0), 0, 0);
    refused(
        b"refuse(255, last) is that refusal",
        &refuse::<()>(255, usize::MAX),
        255,
        usize::MAX,
    );
}
