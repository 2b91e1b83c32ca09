// The function of `sheets::write`.
ghost use Rattle.std.specs.Prelude.{◌<◌, ◌≤◌};

use sheets::sheet::read_sheet;
use sheets::write::write_sheet;
use show::{done, expected, refused, same_counts};

// Over garbage, with bytes behind it.
pub(crate) fn zero_sheet() {
    let numbers = [0i64; 34];
    let mut out = [7u8; 300];
    let written = write_sheet(&numbers, &mut out);
    done(b"write_sheet of zeros is done", &written);
    expected(b"  with 243 bytes", written == Ok(243));
    let (sheet, behind) = out.split_at(243);
    expected(
        b"  which begin with toi, wn and itow",
        sheet.starts_with(b"toi=0\nwn=0\nitow=0\n"),
    );
    expected(
        b"  and end with isf and back 00232",
        sheet.ends_with(b"isf=0\nback 00232\n"),
    );
    expected(
        b"  and the bytes behind stay",
        behind.iter().all(|&byte| byte == 7),
    );
}

// Refused, and what was lent stays.
// It calls its function itself: a common one would take a closure and six arguments.
fn stays<const N: usize>(text: &[u8], numbers: &[i64], number: u8, place: usize)
    requires { N ≤ 300 }
{
    let mut out = [7u8; N];
    refused(text, &write_sheet(numbers, &mut out), number, place);
    expected(b"  and nothing is written", out == [7; N]);
}

fn stay_300(text: &[u8], numbers: &[i64], number: u8, place: usize) {
    stays::<300>(text, numbers, number, place);
}

pub(crate) fn rooms() {
    let numbers = [0i64; 34];
    let mut exact = [7u8; 243];
    stays::<0>(
        b"write_sheet of zeros into nothing is refused 16 at 0",
        &numbers,
        16,
        0,
    );
    stays::<242>(b"  into 242 bytes too", &numbers, 16, 0);
    done(b"  into 243 done", &write_sheet(&numbers, &mut exact));
}

pub(crate) fn numbers_refused() {
    let many = [i64::MAX; 35];
    let mut numbers = [i64::MIN; 34];
    stay_300(
        b"write_sheet of no numbers is refused 1 at 0",
        &many[0..0],
        1,
        0,
    );
    stay_300(b"  of 33 too", &many[0..33], 1, 0);
    stay_300(b"  of 35 too", &many, 1, 0);
    stay_300(b"  of 34 least numbers of all 3 at 0", &numbers, 3, 0);
    stay_300(b"  of 34 most too", &many[0..34], 3, 0);
    numbers[0] = 399;
    stay_300(b"  with toi 399 not for that, but 6 at 1", &numbers, 6, 1);
}

fn with_number(text: &[u8], k: usize, value: i64, number: u8, place: usize)
    requires { k < 34 }
{
    let mut numbers = [0i64; 34];
    numbers[k] = value;
    stay_300(text, &numbers, number, place);
}

pub(crate) fn extreme() {
    with_number(b"write_sheet with toi 400 is refused 3 at 0", 0, 400, 3, 0);
    with_number(b"  with -1 too", 0, -1, 3, 0);
    with_number(b"  with wn -1 6 at 1", 1, -1, 6, 1);
    with_number(b"  with itow 84 6 at 14", 2, 84, 6, 14);
    with_number(
        b"  with the least of all for m0 6 at 141",
        11,
        i64::MIN,
        6,
        141,
    );
    with_number(b"  with tgd -4097 6 at 527", 30, -4097, 6, 527);
    with_number(b"  with the most for isf 6 at 566", 33, i64::MAX, 6, 566);
}

// Written, and read again.
fn is_read_again(text: &[u8], numbers: &[i64; 34]) {
    let mut out = [7u8; 244];
    let written = write_sheet(numbers, &mut out);
    let (sheet, _) = out.split_at(243);
    let read = read_sheet(sheet);
    expected(text, written == Ok(243) && read.is_ok());
    expected(
        b"  with the same numbers",
        read.is_ok_and(|sheet| same_counts(&sheet.numbers, numbers) && sheet.before == 0),
    );
}

// One digit each, so that the sheet has 243 bytes.
pub(crate) fn read_again() {
    let mut numbers = [0i64; 34];
    numbers[4] = 1;
    numbers[7] = 9;
    numbers[26] = 7;
    numbers[33] = 1;
    is_read_again(
        b"write_sheet of health 1, da 9, uraoc2 7 and isf 1 is read again",
        &numbers,
    );
}
