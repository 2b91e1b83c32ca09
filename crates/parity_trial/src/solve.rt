// The function `solve` of `tables::matrix`.
ghost use Rattle.std.specs.Prelude.{◌≤◌};

use show::expected;
use tables::matrix::{Subframe, Submatrix, add, solve};

fn of_nothing(text: &[u8], subframe: Subframe) {
    let mut bytes = [255u8; 9];
    solve(subframe, &mut bytes[0..0]);
    expected(text, bytes == [255; 9]);
}

pub(crate) fn nothing() {
    of_nothing(
        b"solve of nothing, for subframe 2, changes nothing",
        Subframe::Two,
    );
    of_nothing(
        b"solve of nothing, for subframe 3, changes nothing",
        Subframe::Three,
    );
}

// Solved in place, and then as expected.
fn becomes<const N: usize>(text: &[u8], subframe: Subframe, sums: [u8; N], after: [u8; N])
    requires { N ≤ 599 }
{
    let mut unknowns = sums;
    solve(subframe, &mut unknowns);
    expected(text, unknowns == after);
}

// The first column of T has ones in rows 1 and 2, the second in 2, 3 and one that lies far below.
pub(crate) fn known() {
    becomes(
        b"solve of 1 0 0, for subframe 2, leaves 1 1 1",
        Subframe::Two,
        [1, 0, 0],
        [1, 1, 1],
    );
    becomes(
        b"solve of 1 0 0, for subframe 3, leaves 1 1 1",
        Subframe::Three,
        [1, 0, 0],
        [1, 1, 1],
    );
    becomes(
        b"solve of one byte 1, for subframe 2, leaves it",
        Subframe::Two,
        [1],
        [1],
    );
    becomes(b"  for subframe 3 too", Subframe::Three, [1], [1]);
}

// T over these bytes, into zeros, and back from these sums.
fn there_and_back<const N: usize>(text: &[u8], subframe: Subframe, byte: u8)
    requires { N ≤ 599 }
{
    let bytes = [byte; N];
    let mut sums = [0u8; N];
    add(subframe, Submatrix::T, &bytes, &mut sums);
    becomes(text, subframe, sums, bytes);
}

pub(crate) fn back() {
    there_and_back::<599>(
        b"solve of T times 599 ones, for subframe 2, leaves the ones",
        Subframe::Two,
        1,
    );
    there_and_back::<599>(
        b"solve of T times garbage leaves the garbage",
        Subframe::Two,
        255,
    );
    there_and_back::<273>(
        b"solve of T times 273 ones, for subframe 3, leaves the ones",
        Subframe::Three,
        1,
    );
    there_and_back::<273>(
        b"solve of T times garbage leaves the garbage",
        Subframe::Three,
        255,
    );
}
