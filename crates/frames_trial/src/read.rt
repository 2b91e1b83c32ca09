// The functions of `frames::read` on any bytes, on 1800 zeros and on a frame that was built.
use frames::build::build;
use frames::read::{Frame, read, read_subframe2, read_subframe3, read_time};
use show::{done, expected, refused, same_counts};
use words::refusal::{Refusal, refuse};
use words::time::Time;

// What each part of a frame is read as alone.
#[derive(Clone, Copy)]
pub(crate) struct Parts {
    pub(crate) time: Result<Time, Refusal>,
    pub(crate) counts: Result<[i64; 33], Refusal>,
    pub(crate) page: Result<[u8; 250], Refusal>,
}

// One part, with a text for where it is read and one for where it is refused.
fn alone<T: PartialEq + Copy>(
    reads: &[u8],
    refuses: &[u8],
    read: Result<T, Refusal>,
    part: Result<T, Refusal>,
) {
    let text = if part.is_ok() { reads } else { refuses };
    expected(text, read == part);
}

pub(crate) fn time_alone(symbols: &[u8], time: Result<Time, Refusal>) {
    alone(
        b"  read_time reads it",
        b"  read_time refuses it, with zeros",
        read_time(symbols),
        time,
    );
}

pub(crate) fn parts_alone(symbols: &[u8], parts: Parts) {
    time_alone(symbols, parts.time);
    alone(
        b"  read_subframe2 reads it",
        b"  read_subframe2 refuses it, with zeros",
        read_subframe2(symbols),
        parts.counts,
    );
    alone(
        b"  read_subframe3 reads it",
        b"  read_subframe3 refuses it, with zeros",
        read_subframe3(symbols),
        parts.page,
    );
}

// ---- refusals: nothing can stand beside them; the texts are as they were printed when zeros did

// fields_trial has the like of it for `take_page`: one for both would be a public function of `show`, no plainer for two callers.
pub(crate) fn no_frame(text: &[u8], symbols: &[u8], number: u8, place: usize) {
    let frame = read(symbols);
    refused(text, &frame, number, place);
    expected(
        b"  and beside it are zeros",
        frame == Err(Refusal { number, place }),
    );
}

fn all_refuse(text: &[u8], symbols: &[u8], number: u8, place: usize) {
    no_frame(text, symbols, number, place);
    parts_alone(
        symbols,
        Parts {
            time: refuse(number, place),
            counts: refuse(number, place),
            page: refuse(number, place),
        },
    );
}

pub(crate) fn lengths() {
    let garbage = [255u8; 1801];
    all_refuse(
        b"read of no symbols is refused 1 at 0",
        &garbage[0..0],
        1,
        0,
    );
    all_refuse(b"read of 52 bytes is refused 1 at 0", &garbage[0..52], 1, 0);
    all_refuse(
        b"read of 1799 bytes is refused 1 at 0",
        &garbage[0..1799],
        1,
        0,
    );
    all_refuse(b"read of 1801 bytes is refused 1 at 0", &garbage, 1, 0);
}

pub(crate) fn no_bits() {
    let garbage = [255u8; 1800];
    let mut symbols = [1u8; 1800];
    all_refuse(
        b"read of 1800 bytes of garbage is refused 2 at 0",
        &garbage,
        2,
        0,
    );
    symbols[1799] = 2;
    all_refuse(
        b"read with a last byte 2 is refused 2 at 1799",
        &symbols,
        2,
        1799,
    );
}

// ---- contents

// The whole of it, and each part alone.
fn all_read(text: &[u8], symbols: &[u8], contents: Frame) {
    let frame = read(symbols);
    done(text, &frame);
    expected(
        b"  with its time",
        frame.is_ok_and(|frame| {
            frame.toi == contents.toi && frame.corrected == contents.corrected
        }),
    );
    expected(
        b"  with its counts and page bits",
        frame.is_ok_and(|frame| {
            same_counts(&frame.counts, &contents.counts) && frame.page == contents.page
        }),
    );
    parts_alone(
        symbols,
        Parts {
            time: Ok(Time {
                toi: contents.toi,
                corrected: contents.corrected,
            }),
            counts: Ok(contents.counts),
            page: Ok(contents.page),
        },
    );
}

pub(crate) fn zeros() {
    all_read(
        b"read of 1800 zeros is done",
        &[0; 1800],
        Frame {
            toi: 0,
            corrected: 0,
            counts: [0; 33],
            page: [0; 250],
        },
    );
}

pub(crate) fn built() {
    let page = [1u8; 250];
    let mut counts = [0i64; 33];
    let mut symbols = [255u8; 1800];
    counts[0] = 8191;
    counts[10] = -1;
    counts[29] = -4096;
    done(
        b"build of time 399, wn 8191, m0 -1, tgd -4096, a page of ones is done",
        &build(399, &counts, &page, &mut symbols),
    );
    all_read(
        b"  read reads it",
        &symbols,
        Frame {
            toi: 399,
            corrected: 0,
            counts,
            page,
        },
    );
}
