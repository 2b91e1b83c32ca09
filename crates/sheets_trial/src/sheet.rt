// The functions of `sheets::sheet` on any bytes and on the sheet with every number 0.
use super::zeros::zero_sheet;
use sheets::sheet::{Sheet, before_sheet, read_sheet};
use show::{done, expected, refused};

// A refusal, and no bytes before it. No number can stand beside it: the text is as it was printed when zeros did.
pub(crate) fn not_read(text: &[u8], bytes: &[u8], number: u8, place: usize) {
    refused(text, &read_sheet(bytes), number, place);
    expected(b"  and beside it are zeros", before_sheet(bytes).is_empty());
}

// Zeros, behind these bytes.
fn zeros_behind(text: &[u8], bytes: &[u8], before: &[u8]) {
    let read = read_sheet(bytes);
    done(text, &read);
    expected(
        b"  with its numbers",
        read == Ok(Sheet {
            numbers: [0; 34],
            before: before.len(),
        }),
    );
    expected(
        b"  and before_sheet is what stands before it",
        before_sheet(bytes) == before,
    );
}

pub(crate) fn no_trailer() {
    let garbage = [255u8; 500];
    let sheet = zero_sheet();
    not_read(
        b"read_sheet of nothing is refused 10 at 0",
        &garbage[0..0],
        10,
        0,
    );
    not_read(b"  of 10 bytes of garbage too", &garbage[0..10], 10, 0);
    not_read(b"  of 500 too", &garbage, 10, 0);
    not_read(
        b"  of a sheet without its last byte too",
        &sheet[0..242],
        10,
        0,
    );
    not_read(b"  without its first too", &sheet[1..243], 10, 0);
}

pub(crate) fn known() {
    let longer = toi_again();
    let mut sheet = zero_sheet();
    zeros_behind(b"read_sheet of the sheet of zeros is done", &sheet, b"");
    sheet[207] = b'd';
    sheet[208] = b'g';
    not_read(
        b"  with tgd spelt tdg it is refused 12 at 206",
        &sheet,
        12,
        206,
    );
    not_read(
        b"  with the toi line again refused 13 at 232",
        &longer,
        13,
        232,
    );
    not_read(
        b"read_sheet of back 00000 is refused 15 at 1",
        b"back 00000\n",
        15,
        1,
    );
}

// The sheet of zeros with the toi line a second time.
fn toi_again() -> [u8; 249] {
    let mut longer = [0u8; 249];
    longer[..243].copy_from_slice(&zero_sheet());
    longer[232..].copy_from_slice(b"toi=0\nback 00238\n");
    longer
}

// The sheet of zeros twice.
fn two_sheets() -> [u8; 486] {
    let sheet = zero_sheet();
    let mut file = [0u8; 486];
    file[..243].copy_from_slice(&sheet);
    file[243..].copy_from_slice(&sheet);
    file
}

pub(crate) fn behind() {
    let sheet = zero_sheet();
    let file = two_sheets();
    zeros_behind(
        b"read_sheet of two sheets of zeros reads the last",
        &file,
        &sheet,
    );
    zeros_behind(
        b"read_sheet of a sheet behind one byte is done",
        &file[242..486],
        b"\n",
    );
}
