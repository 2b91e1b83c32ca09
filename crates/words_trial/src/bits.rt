// The functions of `words::bits`.
ghost use Rattle.std.specs.Prelude.{◌≤◌};

use show::{done, expected, refused};
use words::bits::{
    copy, first_not_bit, magnitude, put_number, put_signed, take_number, take_signed,
};
use words::refusal::Refusal;

// Refused 1 at 0, with every byte left as it was.
fn stays<const N: usize, F: FnOnce(&mut [u8]) -> Result<(), Refusal>>(
    text: &[u8],
    before: [u8; N],
    put: F,
)
    requires size { N ≤ 64 }
    requires callable { F.IsAlwaysCallable put }
{
    let mut row = before;
    refused(text, &put(&mut row), 1, 0);
    expected(b"  and the bytes stay", row == before);
}

// Put into garbage and read back.
fn put_and_back(text: &[u8], at: usize, width: usize, z: i64) {
    let mut row = [254u8; 64];
    done(text, &put_signed(&mut row, at, width, z));
    expected(b"  and it is read back", take_signed(&row, at, width) == z);
}

pub(crate) fn finding() {
    let bits = [0u8, 1, 1, 0];
    let odd = [0u8, 1, 255, 2];
    let garbage = [255u8; 600];
    expected(
        b"first_not_bit of nothing is 0",
        first_not_bit(&bits[0..0]) == 0,
    );
    expected(
        b"first_not_bit of four bits is 4",
        first_not_bit(&bits) == 4,
    );
    expected(b"first_not_bit of 0 1 255 2 is 2", first_not_bit(&odd) == 2);
    expected(
        b"first_not_bit of garbage is 0",
        first_not_bit(&garbage) == 0,
    );
}

pub(crate) fn taking() {
    let ones = [1u8; 100];
    let garbage = [254u8; 100];
    let four = [1u8, 0, 0, 1];
    expected(
        b"take_number of nothing is 0",
        take_number(&ones[0..0], 0, 8) == 0,
    );
    expected(
        b"take_number of no width is 0",
        take_number(&ones, 0, 0) == 0,
    );
    expected(
        b"take_number of 1 0 0 1 is 9",
        take_number(&four, 0, 4) == 9,
    );
    expected(
        b"take_number of the last two of them is 1",
        take_number(&four, 2, 2) == 1,
    );
    expected(
        b"take_number past the end takes what is there",
        take_number(&four, 2, 40) == 1,
    );
    expected(
        b"take_number at the end is 0",
        take_number(&four, 4, 1) == 0,
    );
    expected(
        b"take_number at the last place of all is 0",
        take_number(&four, usize::MAX, usize::MAX) == 0,
    );
    expected(
        b"take_number of 64 ones is the largest",
        take_number(&ones, 36, 64) == u64::MAX,
    );
    expected(
        b"take_number of more takes the first 64",
        take_number(&ones, 0, 200) == u64::MAX,
    );
    expected(
        b"take_number of bytes 254 is 0",
        take_number(&garbage, 3, 50) == 0,
    );
}

pub(crate) fn taking_signed() {
    let ones = [1u8; 100];
    let mut least = [0u8; 100];
    least[0] = 1;
    expected(
        b"take_signed of nothing is 0",
        take_signed(&ones[0..0], 0, 8) == 0,
    );
    expected(
        b"take_signed of one 1 is -1",
        take_signed(&ones, 99, 1) == -1,
    );
    expected(b"take_signed of one 0 is 0", take_signed(&least, 1, 1) == 0);
    expected(
        b"take_signed of 13 bits, the first one, is -4096",
        take_signed(&least, 0, 13) == -4096,
    );
    expected(
        b"take_signed of 33 bits, the first one, is -4294967296",
        take_signed(&least, 0, 33) == -4294967296,
    );
    expected(
        b"take_signed of 33 ones is -1",
        take_signed(&ones, 7, 33) == -1,
    );
    expected(
        b"take_signed of 64 bits, the first one, is the least",
        take_signed(&least, 0, 64) == i64::MIN,
    );
    expected(
        b"take_signed of more takes the first 64",
        take_signed(&least, 0, usize::MAX) == i64::MIN,
    );
    expected(
        b"take_signed past the end is 0",
        take_signed(&ones, 100, 5) == 0,
    );
    expected(
        b"take_signed at the last place of all is 0",
        take_signed(&ones, usize::MAX, 5) == 0,
    );
}

pub(crate) fn putting() {
    let mut row = [7u8; 6];
    stays(
        b"put_number past the end is refused 1 at 0",
        [7; 6],
        |row| put_number(row, 4, 3, 0),
    );
    stays(
        b"put_number at the last place of all is refused 1 at 0",
        [1; 6],
        |row| put_number(row, usize::MAX, 1, 0),
    );
    stays(
        b"put_number of width 200 is refused 1 at 0",
        [255; 6],
        |row| put_number(row, 0, 200, 0),
    );
    stays(
        b"put_number of 8 in three bits is refused 1 at 0",
        [0; 6],
        |row| put_number(row, 0, 3, 8),
    );
    refused(
        b"put_number into nothing is refused 1 at 0",
        &put_number(&mut row[0..0], 0, 1, 0),
        1,
        0,
    );
    done(
        b"put_number of no width is done",
        &put_number(&mut row, 6, 0, 0),
    );
    done(
        b"put_number of 5 in three bits at 2 is done",
        &put_number(&mut row, 2, 3, 5),
    );
    expected(
        b"  and the bytes are 7 7 1 0 1 7",
        row == [7, 7, 1, 0, 1, 7],
    );
}

pub(crate) fn putting_wide() {
    let mut wide = [1u8; 80];
    done(
        b"put_number of the largest in 70 bits is done",
        &put_number(&mut wide, 5, 70, u64::MAX),
    );
    expected(
        b"  and it is read back",
        take_number(&wide, 11, 64) == u64::MAX,
    );
    expected(b"  with zeros before it", take_number(&wide, 5, 6) == 0);
}

pub(crate) fn putting_signed() {
    stays(
        b"put_signed of no width is refused 1 at 0",
        [9; 64],
        |row| put_signed(row, 0, 0, 0),
    );
    stays(
        b"put_signed of width 65 is refused 1 at 0",
        [9; 64],
        |row| put_signed(row, 0, 65, 0),
    );
    stays(
        b"put_signed of -4097 in 13 bits is refused 1 at 0",
        [9; 64],
        |row| put_signed(row, 0, 13, -4097),
    );
    stays(
        b"put_signed of 4096 in 13 bits is refused 1 at 0",
        [9; 64],
        |row| put_signed(row, 0, 13, 4096),
    );
    stays(
        b"put_signed past the end is refused 1 at 0",
        [9; 64],
        |row| put_signed(row, 60, 5, 0),
    );
    stays(
        b"put_signed at the last place of all is refused 1 at 0",
        [9; 64],
        |row| put_signed(row, usize::MAX, usize::MAX, -1),
    );
    put_and_back(b"put_signed of -4096 in 13 bits is done", 3, 13, -4096);
    put_and_back(
        b"put_signed of 4294967295 in 33 bits is done",
        20,
        33,
        4294967295,
    );
    put_and_back(b"put_signed of 0 in one bit is done", 63, 1, 0);
    put_and_back(
        b"put_signed of the least in 64 bits is done",
        0,
        64,
        i64::MIN,
    );
}

pub(crate) fn magnitudes() {
    expected(b"magnitude of 0 is 0", magnitude(0) == 0);
    expected(b"magnitude of -1 is 0", magnitude(-1) == 0);
    expected(b"magnitude of 4096 is 4096", magnitude(4096) == 4096);
    expected(b"magnitude of -4096 is 4095", magnitude(-4096) == 4095);
    expected(
        b"magnitude of the most is itself",
        magnitude(i64::MAX) == i64::MAX as u64,
    );
    expected(
        b"magnitude of the least is that too",
        magnitude(i64::MIN) == i64::MAX as u64,
    );
}

pub(crate) fn not_copying() {
    let from = [0u8, 1, 255, 2, 3];
    stays(
        b"copy of 5 bytes over 4 is refused 1 at 0",
        [9; 4],
        |row| copy(&from, row),
    );
    stays(
        b"copy of 3 bytes over 4 too",
        [9; 4],
        |row| copy(&from[0..3], row),
    );
    stays(
        b"copy of nothing over 4 too",
        [9; 4],
        |row| copy(&from[0..0], row),
    );
}

pub(crate) fn copying() {
    let from = [1u8, 255, 2, 3];
    let mut row = [9u8; 4];
    done(b"copy of 4 bytes over 4 is done", &copy(&from, &mut row));
    expected(b"  and the bytes are 1 255 2 3", row == [1, 255, 2, 3]);
}

pub(crate) fn copying_nothing() {
    let from = [7u8; 2];
    let mut none = [0u8; 0];
    refused(
        b"copy of 2 bytes over nothing is refused 1 at 0",
        &copy(&from, &mut none),
        1,
        0,
    );
    done(
        b"copy of nothing over nothing is done",
        &copy(&from[0..0], &mut none),
    );
}
