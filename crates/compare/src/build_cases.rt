// The cases that set the base, which is a frame and its contents: building, and frames that no builder makes.
use super::base::Base;
use super::bytes::{GARBAGE, all_are};
use super::contents::{Contents, read_symbols};
use super::input::read_number;
use super::told::{DONE, Told, read_told};
use frames::build::build;

// ---- the base

pub(crate) fn written_agrees(base: &mut Base) -> bool {
    let are_contents = base.contents.read();
    let are_symbols = read_symbols(&mut base.frame);
    are_contents && are_symbols
}

// ---- building

// A frame that is told to be built becomes the base.
pub(crate) fn built_agrees(base: &mut Base) -> bool {
    let mut contents = Contents::zeros();
    let mut expected = [0u8; 1800];
    let toi = read_number(5, b' ');
    let are_contents = contents.read();
    let told = read_told(b' ');
    let are_symbols = read_symbols(&mut expected);
    if told == DONE {
        base.contents = contents;
        base.frame = expected;
    }
    are_contents && are_symbols && building_agrees(toi, &contents, told, &expected)
}

// A frame that is refused has to stay as it was lent.
fn building_agrees(
    toi: Option<usize>,
    contents: &Contents,
    told: Told,
    expected: &[u8; 1800],
) -> bool {
    let Some(toi) = toi.and_then(|toi| u16::try_from(toi).ok()) else {
        return false;
    };
    let mut frame = [GARBAGE; 1800];
    let answer = build(toi, &contents.counts, &contents.page, &mut frame);
    told == Some(answer) && is_left(told, &frame, expected)
}

fn is_left(told: Told, frame: &[u8; 1800], expected: &[u8; 1800]) -> bool {
    if told == DONE {
        frame == expected
    } else {
        all_are(frame, GARBAGE)
    }
}
