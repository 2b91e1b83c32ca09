// What the functions of `frames::read` refuse for one part of a frame, while the others are read.
ghost use Rattle.std.specs.Prelude.{◌≤◌};

use super::read::{Parts, no_frame, parts_alone, time_alone};
use parity::fill::fill_parity;
use parity::order::interleave;
use show::done;
use tables::matrix::Subframe;
use words::bits::put_number;
use words::crc::put_check;
use words::refusal::{Refusal, refuse};
use words::time::Time;

// A part of a frame.
#[derive(Clone, Copy)]
enum Part {
    Time,
    Two,
    Three,
}

// Of symbols that but for one part are zeros: that part alone is refused, and so is the whole.
fn only(text: &[u8], part: Part, symbols: &[u8; 1800], number: u8, place: usize) {
    let zeros = Parts {
        time: Ok(Time {
            toi: 0,
            corrected: 0,
        }),
        counts: Ok([0; 33]),
        page: Ok([0; 250]),
    };
    let parts = match part {
        Part::Time => Parts {
            time: refuse(number, place),
            ..zeros
        },
        Part::Two => Parts {
            counts: refuse(number, place),
            ..zeros
        },
        Part::Three => Parts {
            page: refuse(number, place),
            ..zeros
        },
    };
    no_frame(text, symbols, number, place);
    parts_alone(symbols, parts);
}

// Nine turned are borne, ten are not.
pub(crate) fn turned_time() {
    let mut symbols = [0u8; 1800];
    done(
        b"nine symbols of the time turned",
        &put_number(&mut symbols, 0, 9, 511),
    );
    time_alone(
        &symbols,
        Ok(Time {
            toi: 0,
            corrected: 9,
        }),
    );
    symbols[9] = 1;
    only(
        b"read with ten of them turned is refused 3 at 0",
        Part::Time,
        &symbols,
        3,
        0,
    );
}

// The first data symbol of each is in equation 1, and leaves at 0 or 178.
pub(crate) fn turned_data() {
    let mut two = [0u8; 1800];
    let mut three = [0u8; 1800];
    two[52] = 1;
    three[230] = 1;
    only(
        b"read with the first symbol of subframe 2 turned is refused 4 at 1",
        Part::Two,
        &two,
        4,
        1,
    );
    only(
        b"read with the first symbol of subframe 3 turned is refused 7 at 1",
        Part::Three,
        &three,
        7,
        1,
    );
}

// Two blocks of data symbols with their parity, in order behind the time's word.
// Not put into its caller, so that its blocks are off the stack when the frame is read.
#[inline(never)]
fn put_blocks(
    mut two: [u8; 1200],
    mut three: [u8; 548],
    symbols: &mut [u8; 1800],
) -> Result<(), Refusal> {
    fill_parity(Subframe::Two, &mut two)?;
    fill_parity(Subframe::Three, &mut three)?;
    interleave(&two, &three, &mut symbols[52..])
}

// The block with the check bits behind its other data symbols.
// Asked for, here and below: that `N` is small. An array of any `N` may be larger than there is memory, and no type says how large.
fn checked<const N: usize>(mut block: [u8; N]) -> [u8; N]
    requires size { N ≤ 1200 }
    requires room { 48 ≤ N }
{
    put_check(&mut block[..N / 2]).unwrap();
    block
}

// A number among the data symbols of a block.
fn with_number<const N: usize>(
    text: &[u8],
    mut block: [u8; N],
    at: usize,
    width: usize,
    number: u64,
) -> [u8; N]
    requires { N ≤ 1200 }
{
    done(text, &put_number(&mut block, at, width, number));
    block
}

fn page1() -> [u8; 548] {
    let mut three = [0u8; 548];
    put_number(&mut three, 8, 6, 1).unwrap();
    three
}

// Where there is no frame, the zeros in its place are read, and so nothing is refused.
fn is_refused(part: Part, two: [u8; 1200], three: [u8; 548], number: u8, place: usize) {
    let mut symbols = [0; 1800];
    let _ = put_blocks(two, three, &mut symbols);
    only(b"  read refuses it", part, &symbols, number, place);
}

pub(crate) fn checks() {
    is_refused(
        Part::Two,
        with_number(
            b"itow 84 without its check bits: 5 at 0",
            [0; 1200],
            13,
            8,
            84,
        ),
        [0; 548],
        5,
        0,
    );
    is_refused(
        Part::Three,
        [0; 1200],
        with_number(
            b"a page 1 without its check bits: 8 at 0",
            page1(),
            58,
            16,
            37800,
        ),
        8,
        0,
    );
}

fn two_out_of_range(text: &[u8], at: usize, width: usize, number: u64, place: usize) {
    let two = checked(with_number(text, [0; 1200], at, width, number));
    is_refused(Part::Two, two, [0; 548], 6, place);
}

// Page 1 with this tot, and with DN 0.
fn three_out_of_range(text: &[u8], tot: u64, place: usize) {
    let three = checked(with_number(text, page1(), 58, 16, tot));
    is_refused(Part::Three, [0; 1200], three, 9, place);
}

pub(crate) fn ranges() {
    two_out_of_range(b"itow 84: 6 at 14", 13, 8, 84, 14);
    two_out_of_range(b"toe 2016: 6 at 39", 38, 11, 2016, 39);
    two_out_of_range(b"a reserved bit: 6 at 567", 575, 1, 1, 567);
    three_out_of_range(b"a page 1 with tot 37799 and DN 0: 9 at 101", 37799, 101);
    three_out_of_range(b"a page 1 with tot 37800: 9 at 59", 37800, 59);
}
