// The function of `parity::fill`.
ghost use Rattle.std.specs.Prelude.{◌≤◌};

use parity::equations::first_unmet;
use parity::fill::fill_parity;
use show::{done, expected, refused};
use tables::matrix::Subframe;
use words::bits::put_number;

// Asked for, here and below: that `N` is small. An array of any `N` may be larger than there is memory, and no type says how large.
fn filled<const N: usize>(text: &[u8], subframe: Subframe, mut block: [u8; N])
    requires { N ≤ 1200 }
{
    done(text, &fill_parity(subframe, &mut block));
    expected(b"  and all are zeros", block == [0; N]);
}

// Zeros for data before garbage in the places of the parity.
fn zeros_behind<const N: usize>(put: &[u8], text: &[u8], subframe: Subframe)
    requires { N ≤ 1200 }
{
    let mut block = [255u8; N];
    done(put, &put_number(&mut block, 0, N / 2, 0));
    filled(text, subframe, block);
}

pub(crate) fn zeros() {
    zeros_behind::<1200>(
        b"put_number of 600 zeros before garbage is done",
        b"fill_parity behind them, of subframe 2, is done",
        Subframe::Two,
    );
    zeros_behind::<548>(
        b"put_number of 274 zeros before garbage is done",
        b"fill_parity behind them, of subframe 3, is done",
        Subframe::Three,
    );
}

// Filled, the equations are all met.
fn meets<const N: usize>(text: &[u8], subframe: Subframe)
    requires { N ≤ 1200 }
{
    let mut block = [1u8; N];
    done(text, &fill_parity(subframe, &mut block));
    done(
        b"  and every equation is met",
        &first_unmet(subframe, &block),
    );
    expected(
        b"  and the data stays",
        block[..N / 2].iter().all(|&symbol| symbol == 1),
    );
}

pub(crate) fn ones() {
    meets::<1200>(
        b"fill_parity behind 600 ones, of subframe 2, is done",
        Subframe::Two,
    );
    meets::<548>(
        b"fill_parity behind 274 ones, of subframe 3, is done",
        Subframe::Three,
    );
}

// Refused, and the bytes stay.
// It calls `fill_parity` itself: a closure of that call at each place below would be no plainer.
fn stays<const N: usize>(text: &[u8], subframe: Subframe, before: [u8; N], number: u8, place: usize)
    requires { N ≤ 1201 }
{
    let mut block = before;
    refused(text, &fill_parity(subframe, &mut block), number, place);
    expected(b"  and the bytes stay", block == before);
}

// A wrong length comes before data that is no bits.
fn length<const N: usize>(text: &[u8], subframe: Subframe)
    requires { N ≤ 1201 }
{
    stays(text, subframe, [255; N], 1, 0);
}

pub(crate) fn lengths() {
    length::<1199>(
        b"fill_parity into 1199 bytes, of subframe 2, is refused 1 at 0",
        Subframe::Two,
    );
    length::<1201>(b"  into 1201 too", Subframe::Two);
    length::<548>(b"  into 548 too", Subframe::Two);
    length::<0>(b"  into nothing too", Subframe::Two);
    length::<547>(
        b"fill_parity into 547 bytes, of subframe 3, is refused 1 at 0",
        Subframe::Three,
    );
    length::<549>(b"  into 549 too", Subframe::Three);
    length::<0>(b"  into nothing too", Subframe::Three);
}

fn last_data<const N: usize>(text: &[u8], subframe: Subframe)
    requires size { N ≤ 1200 }
    requires middle { 2 ≤ N }
{
    let mut block = [1u8; N];
    block[N / 2 - 1] = 2;
    stays(text, subframe, block, 2, N / 2 - 1);
}

pub(crate) fn no_bits() {
    stays(
        b"fill_parity of garbage, of subframe 2, is refused 2 at 0",
        Subframe::Two,
        [255; 1200],
        2,
        0,
    );
    stays(
        b"fill_parity of garbage, of subframe 3, is refused 2 at 0",
        Subframe::Three,
        [255; 548],
        2,
        0,
    );
    last_data::<1200>(
        b"fill_parity with a last data byte 2, of subframe 2, is refused 2 at 599",
        Subframe::Two,
    );
    last_data::<548>(
        b"fill_parity with a last data byte 2, of subframe 3, is refused 2 at 273",
        Subframe::Three,
    );
}

// In the places of the parity a byte that is no bit is written over.
fn written_over<const N: usize>(text: &[u8], subframe: Subframe)
    requires size { N ≤ 1200 }
    requires middle { 2 ≤ N }
{
    let mut block = [0u8; N];
    block[N / 2] = 2;
    block[N - 1] = 2;
    filled(text, subframe, block);
}

pub(crate) fn parity_no_bits() {
    written_over::<1200>(
        b"fill_parity over a byte 2 first and last, of subframe 2, is done",
        Subframe::Two,
    );
    written_over::<548>(
        b"fill_parity over a byte 2 first and last, of subframe 3, is done",
        Subframe::Three,
    );
}
