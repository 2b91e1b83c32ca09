// The functions `equations` and `add` of `tables::matrix`.
ghost use Rattle.std.specs.Prelude.{◌<◌, ◌≤◌};

use show::expected;
use tables::matrix::{Subframe, Submatrix, add, equations};

pub(crate) fn counts() {
    expected(
        b"equations of subframe 2 are 600",
        equations(Subframe::Two) == 600,
    );
    expected(
        b"equations of subframe 3 are 274",
        equations(Subframe::Three) == 274,
    );
}

// Over no symbols nothing is added, and into no sums neither.
fn empty(text: &[u8], subframe: Subframe, submatrix: Submatrix) {
    let garbage = [255u8; 600];
    let mut sums = [9u8; 600];
    add(subframe, submatrix, &garbage[0..0], &mut sums);
    expected(text, sums == [9; 600]);
    add(subframe, submatrix, &garbage, &mut sums[0..0]);
    expected(b"  and into nothing neither", sums == [9; 600]);
}

pub(crate) fn empty_ones() {
    empty(
        b"A of subframe 2 over nothing adds nothing",
        Subframe::Two,
        Submatrix::A,
    );
    empty(
        b"T of subframe 2 over nothing adds nothing",
        Subframe::Two,
        Submatrix::T,
    );
    empty(
        b"A of subframe 3 over nothing adds nothing",
        Subframe::Three,
        Submatrix::A,
    );
    empty(
        b"E of subframe 3 over nothing adds nothing",
        Subframe::Three,
        Submatrix::E,
    );
}

// The sum of the first row, from 0.
fn first(text: &[u8], subframe: Subframe, submatrix: Submatrix, symbols: &[u8], sum: u8) {
    let mut sums = [0u8; 1];
    add(subframe, submatrix, symbols, &mut sums);
    expected(text, sums == [sum]);
}

// C is one row: in subframe 2 it has five ones, from column 74 on, in subframe 3 four, from column 23 on.
fn c_by_columns() {
    let ones = [1u8; 600];
    first(
        b"C of subframe 2 over 73 ones adds 0",
        Subframe::Two,
        Submatrix::C,
        &ones[0..73],
        0,
    );
    first(
        b"  over 74 ones: 1",
        Subframe::Two,
        Submatrix::C,
        &ones[0..74],
        1,
    );
    first(b"  over 600 ones: 1", Subframe::Two, Submatrix::C, &ones, 1);
    first(
        b"C of subframe 3 over 22 ones adds 0",
        Subframe::Three,
        Submatrix::C,
        &ones[0..22],
        0,
    );
    first(
        b"  over 23 ones: 1",
        Subframe::Three,
        Submatrix::C,
        &ones[0..23],
        1,
    );
    first(
        b"  over 600 ones: 0",
        Subframe::Three,
        Submatrix::C,
        &ones,
        0,
    );
}

pub(crate) fn last_rows() {
    let one = [1u8; 1];
    first(
        b"D of subframe 2 over a one adds 1",
        Subframe::Two,
        Submatrix::D,
        &one,
        1,
    );
    first(
        b"D of subframe 3 over a one adds 1",
        Subframe::Three,
        Submatrix::D,
        &one,
        1,
    );
    c_by_columns();
}

// D over one byte, from another.
fn bit_by_bit(text: &[u8], subframe: Subframe, symbol: u8, before: u8, sum: u8) {
    let mut sums = [before; 1];
    add(subframe, Submatrix::D, &[symbol], &mut sums);
    expected(text, sums == [sum]);
}

pub(crate) fn no_bits() {
    bit_by_bit(
        b"D of subframe 2 over 6 turns 3 into 5",
        Subframe::Two,
        6,
        3,
        5,
    );
    bit_by_bit(b"  over 255 turns 1 into 254", Subframe::Two, 255, 1, 254);
    bit_by_bit(b"  over 255 turns 255 into 0", Subframe::Two, 255, 255, 0);
}

// A over a one in the first column, into zeros: these rows, from 0, and no others get it.
fn first_column(text: &[u8], subframe: Subframe, rows: [usize; 3]) {
    let mut sums = [0u8; 600];
    add(subframe, Submatrix::A, &[1], &mut sums);
    expected(
        text,
        sums.iter()
            .enumerate()
            .all(|(row, &sum)| sum == u8::from(rows.contains(&row))),
    );
}

pub(crate) fn first_columns() {
    first_column(
        b"A of subframe 2 over a one: rows 1, 151 and 440",
        Subframe::Two,
        [0, 150, 439],
    );
    first_column(
        b"A of subframe 3 over a one: rows 1, 17 and 231",
        Subframe::Three,
        [0, 16, 230],
    );
}

// B over a one, into the first `count` sums: one row and no other gets it.
fn cut_after(text: &[u8], subframe: Subframe, count: usize, row: usize)
    requires prefix { count ≤ 50 }
    requires row_inside { row < 50 }
{
    let mut after = [0u8; 50];
    let mut sums = [0u8; 50];
    after[row] = 1;
    add(subframe, Submatrix::B, &[1], &mut sums[..count]);
    expected(text, sums == after);
}

// Row 44, or row 20, would be the next byte.
pub(crate) fn cut_short() {
    cut_after(
        b"B of subframe 2 into 43 sums: row 1, and nothing past the end",
        Subframe::Two,
        43,
        0,
    );
    cut_after(
        b"B of subframe 3 into 19 sums: row 3, and nothing past the end",
        Subframe::Three,
        19,
        2,
    );
}
