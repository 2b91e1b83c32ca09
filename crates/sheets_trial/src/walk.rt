// The function of `sheets::walk` that takes plain bytes and a place, and where a walk goes on from there.
use sheets::walk::{Walk, walk_back};
use sheets::write::write_sheet;
use show::{expected, is_refused};

// The place of a walk from `place` behind its step.
fn place_after(bytes: &[u8], place: usize) -> usize {
    let mut walk = Walk { bytes, place };
    walk.next();
    walk.place
}

fn finishes(text: &[u8], bytes: &[u8], place: usize) {
    expected(
        text,
        walk_back(bytes, place).is_none() && place_after(bytes, place) == 0,
    );
}

// Refused, and the place stays.
fn stays(text: &[u8], bytes: &[u8], place: usize, number: u8, at: usize) {
    expected(
        text,
        matches!(walk_back(bytes, place), Some(step) if is_refused(&step, number, at)),
    );
    expected(b"  and its place stays", place_after(bytes, place) == place);
}

// A sheet with this time, and zeros else.
fn reads(text: &[u8], bytes: &[u8], place: usize, toi: i64, next: usize) {
    let Some(Ok(sheet)) = walk_back(bytes, place) else {
        expected(text, false);
        return;
    };
    expected(text, true);
    expected(
        b"  and its place is where the sheet begins",
        sheet.before == next && place_after(bytes, place) == next,
    );
    expected(b"  with its time", sheet.numbers[0] == toi);
    expected(b"  and its other numbers", sheet.numbers[1..] == [0; 33]);
}

pub(crate) fn nothing() {
    finishes(b"walk_back over nothing from 0 is finished", b"", 0);
    stays(b"  from 1 refused 1 at 0", b"", 1, 1, 0);
}

// Of time 0, in 243 bytes, and of time 399, in 245. A refusal would leave zeros, which no step reads as a sheet.
fn file() -> [u8; 488] {
    let zeros = [0i64; 34];
    let mut numbers = [0i64; 34];
    let mut bytes = [0u8; 488];
    numbers[0] = 399;
    let _ = write_sheet(&zeros, &mut bytes);
    let _ = write_sheet(&numbers, &mut bytes[243..]);
    bytes
}

pub(crate) fn two_sheets() {
    let bytes = file();
    reads(
        b"walk_back over two sheets from their end reads the last",
        &bytes,
        488,
        399,
        243,
    );
    reads(b"  from there it reads the first", &bytes, 243, 0, 0);
    finishes(b"  from there it is finished", &bytes, 0);
}

pub(crate) fn inside() {
    let bytes = file();
    let mut broken = file();
    stays(b"walk_back from 1 is refused 10 at 0", &bytes, 1, 10, 0);
    stays(b"  from one byte before the end too", &bytes, 487, 10, 0);
    broken[243] = b'T';
    stays(b"  over a last sheet with Toi 12 at 0", &broken, 488, 12, 0);
}

pub(crate) fn past_end() {
    let bytes = file();
    stays(
        b"walk_back from one byte past the end is refused 1 at 0",
        &bytes,
        489,
        1,
        0,
    );
    stays(b"  from the most of all too", &bytes, usize::MAX, 1, 0);
    stays(b"  over back 00000 from 12 too", b"back 00000\n", 12, 1, 0);
}
