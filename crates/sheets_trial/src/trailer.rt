// The function of `sheets::trailer`.
use sheets::trailer::sheet_start;
use show::expected;

fn starts(text: &[u8], bytes: &[u8], start: usize) {
    expected(text, sheet_start(bytes) == start);
}

pub(crate) fn short() {
    let garbage = [255u8; 11];
    starts(b"sheet_start of nothing is 0", &garbage[0..0], 0);
    starts(b"  of 10 bytes of garbage 10", &garbage[0..10], 10);
    starts(b"  of 11 bytes of garbage 11", &garbage, 11);
    starts(b"  of a trailer's last 10 bytes 10", b"ack 00000\n", 10);
    starts(b"  of its first 10 bytes 10", b"back 00000", 10);
}

pub(crate) fn malformed() {
    starts(b"sheet_start of BACK 00000 is 11", b"BACK 00000\n", 11);
    starts(b"  of back 0000O 11", b"back 0000O\n", 11);
    starts(b"  of back -0000 11", b"back -0000\n", 11);
    starts(b"  of back 00000 and byte 13 11", b"back 00000\r", 11);
    starts(b"  of back 000000 12", b"back 000000\n", 12);
    starts(b"  of back 00000 and a space 12", b"back 00000\n ", 12);
}

pub(crate) fn counts() {
    starts(b"sheet_start of back 00000 is 0", b"back 00000\n", 0);
    starts(b"  behind three bytes 3", b"abcback 00000\n", 3);
    starts(
        b"  of back 00003 behind three bytes 0",
        b"abcback 00003\n",
        0,
    );
    starts(b"  of back 00002 1", b"abcback 00002\n", 1);
    starts(b"  of back 00004 14", b"abcback 00004\n", 14);
    starts(b"  of back 99999 14", b"abcback 99999\n", 14);
}

// A trailer behind 4097 bytes.
fn behind_many(trailer: &[u8; 11]) -> [u8; 4108] {
    let mut bytes = [10u8; 4108];
    bytes[4097..].copy_from_slice(trailer);
    bytes
}

pub(crate) fn large_counts() {
    let over = behind_many(b"back 04097\n");
    let most = behind_many(b"back 04096\n");
    starts(
        b"sheet_start of back 04097 behind 4097 bytes is 4108",
        &over,
        4108,
    );
    starts(b"  of back 04096 1", &most, 1);
}
