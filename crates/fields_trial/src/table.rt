// The functions of `fields::table`, `in_range` of `fields::counts` and `delay_of` of `fields::delay`.
use fields::counts::in_range;
use fields::delay::delay_of;
use fields::pages::{DN, TEXT, TEXT_PAGE, TOT};
use fields::subframe2::{ECC, ISF, ITOW, TGD, TOE};
use fields::table::{Field, Table, bit_count, field_at, field_count};
use show::expected;

fn size(text: &[u8], table: Table, fields: usize, bits: usize) {
    expected(
        text,
        field_count(table) == fields && bit_count(table) == bits,
    );
}

pub(crate) fn sizes() {
    size(
        b"subframe 2 has 33 fields, 566 bits",
        Table::Subframe2,
        33,
        566,
    );
    size(b"page 1 has 17 fields, 162 bits", Table::Page1, 17, 162);
    size(b"page 6 has 30 fields, 236 bits", Table::Page6, 30, 236);
    size(b"no fields have no bits", Table::NoFields, 0, 0);
}

fn row(width: usize, signed: bool, least: u64, most: u64) -> Field {
    Field {
        width,
        signed,
        least,
        most,
    }
}

fn has_row(text: &[u8], table: Table, k: usize, row: Field) {
    expected(text, field_at(table, k) == row);
}

pub(crate) fn rows_of_subframe2() {
    has_row(
        b"wn has 13 bits, to 8191",
        Table::Subframe2,
        0,
        row(13, false, 0, 8191),
    );
    has_row(
        b"itow has 8 bits, to 83",
        Table::Subframe2,
        ITOW,
        row(8, false, 0, 83),
    );
    has_row(
        b"toe has 11 bits, to 2015",
        Table::Subframe2,
        TOE,
        row(11, false, 0, 2015),
    );
    has_row(
        b"ecc has 33 bits, to 8589934591",
        Table::Subframe2,
        ECC,
        row(33, false, 0, 8589934591),
    );
    has_row(
        b"tgd has 13 bits and a sign",
        Table::Subframe2,
        TGD,
        row(13, true, 0, 4095),
    );
    has_row(b"isf has 1 bit", Table::Subframe2, ISF, row(1, false, 0, 1));
}

pub(crate) fn rows_of_pages() {
    has_row(
        b"A0 has 16 bits and a sign",
        Table::Page1,
        0,
        row(16, true, 0, 32767),
    );
    has_row(
        b"tot has 16 bits, to 37799",
        Table::Page1,
        TOT,
        row(16, false, 0, 37799),
    );
    has_row(
        b"DN has 4 bits, 1 to 7",
        Table::Page1,
        DN,
        row(4, false, 1, 7),
    );
    has_row(
        b"the text page has 4 bits",
        Table::Page6,
        TEXT_PAGE,
        row(4, false, 0, 15),
    );
    has_row(
        b"the first byte of text has 8",
        Table::Page6,
        TEXT,
        row(8, false, 0, 255),
    );
    has_row(
        b"and so has the last",
        Table::Page6,
        29,
        row(8, false, 0, 255),
    );
}

fn no_row(text: &[u8], table: Table, k: usize) {
    has_row(text, table, k, row(0, false, 0, 0));
}

pub(crate) fn no_rows() {
    no_row(
        b"past the last field of subframe 2 there are no bits",
        Table::Subframe2,
        33,
    );
    no_row(b"  of page 1", Table::Page1, 17);
    no_row(b"  of page 6", Table::Page6, 30);
    no_row(b"  of no fields", Table::NoFields, 0);
    no_row(b"  at the last place of all", Table::Subframe2, usize::MAX);
}

fn within(text: &[u8], k: usize, count: i64, is_in: bool) {
    expected(
        text,
        in_range(field_at(Table::Subframe2, k), count) == is_in,
    );
}

pub(crate) fn ranges() {
    within(b"itow 83 is in range", ITOW, 83, true);
    within(b"itow 84 is not", ITOW, 84, false);
    within(b"itow -1 is not", ITOW, -1, false);
    within(b"tgd -4096 is", TGD, -4096, true);
    within(b"tgd -4097 is not", TGD, -4097, false);
    within(b"tgd 4095 is", TGD, 4095, true);
    within(b"tgd 4096 is not", TGD, 4096, false);
    within(b"past the last field 0 is", 33, 0, true);
    within(b"  and 1 is not", 33, 1, false);
}

fn odd(text: &[u8], least: u64, most: u64, count: i64, is_in: bool) {
    expected(
        text,
        in_range(row(usize::MAX, true, least, most), count) == is_in,
    );
}

pub(crate) fn odd_ranges() {
    odd(
        b"the least of all is in a signed range without end",
        0,
        u64::MAX,
        i64::MIN,
        true,
    );
    odd(b"and the most", 0, u64::MAX, i64::MAX, true);
    odd(
        b"the least is in the range to 2^63 - 1",
        0,
        (1 << 63) - 1,
        i64::MIN,
        true,
    );
    odd(
        b"and not in that to 2^63 - 2",
        0,
        (1 << 63) - 2,
        i64::MIN,
        false,
    );
    odd(
        b"nothing is in a range that ends before it begins",
        5,
        3,
        4,
        false,
    );
}

pub(crate) fn delays() {
    expected(b"delay_of -4096: not available", delay_of(-4096) == None);
    expected(b"delay_of -4095: a delay", delay_of(-4095) == Some(-4095));
    expected(
        b"delay_of -4097: that number",
        delay_of(-4097) == Some(-4097),
    );
    expected(b"delay_of 4096: that number", delay_of(4096) == Some(4096));
    expected(
        b"delay_of 0: no delay at all, which is one",
        delay_of(0) == Some(0),
    );
    expected(
        b"delay_of the least: that number",
        delay_of(i64::MIN) == Some(i64::MIN),
    );
    expected(
        b"delay_of the most: that number",
        delay_of(i64::MAX) == Some(i64::MAX),
    );
}
