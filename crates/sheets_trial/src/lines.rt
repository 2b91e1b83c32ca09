// What `read_sheet` refuses of a line.
use super::sheet::not_read;

pub(crate) fn no_lines() {
    not_read(
        b"read_sheet of an empty line is refused 11 at 0",
        b"\nback 00001\n",
        11,
        0,
    );
    not_read(b"  of a line without = too", b"toi\nback 00004\n", 11, 0);
    not_read(
        b"  of a line without its end too",
        b"toi=0back 00005\n",
        11,
        0,
    );
    not_read(
        b"  of the second line so, 11 at 6",
        b"toi=0\nwn=0back 00010\n",
        11,
        6,
    );
    not_read(b"  of one line, 15 at 2", b"toi=0\nback 00006\n", 15, 2);
}

pub(crate) fn names() {
    not_read(
        b"read_sheet of no name is refused 12 at 0",
        b"=0\nback 00003\n",
        12,
        0,
    );
    not_read(b"  of Toi too", b"Toi=0\nback 00006\n", 12, 0);
    not_read(b"  of to too", b"to=0\nback 00005\n", 12, 0);
    not_read(b"  of toi and a space too", b"toi =0\nback 00007\n", 12, 0);
    not_read(
        b"  of helth too, behind toi at 6",
        b"toi=0\nhelth=1\nback 00014\n",
        12,
        6,
    );
    not_read(
        b"  of toi a second time, with a bad number, 13 at 6",
        b"toi=0\ntoi=x\nback 00012\n",
        13,
        6,
    );
}

pub(crate) fn numbers() {
    malformed();
    out_of_range();
    long();
}

fn malformed() {
    not_read(
        b"read_sheet of no number is refused 14 at 0",
        b"toi=\nback 00005\n",
        14,
        0,
    );
    not_read(b"  of - too", b"da=-\nback 00005\n", 14, 0);
    not_read(b"  of -0 too", b"da=-0\nback 00006\n", 14, 0);
    not_read(b"  of 00 too", b"da=00\nback 00006\n", 14, 0);
    not_read(b"  of +1 too", b"da=+1\nback 00006\n", 14, 0);
    not_read(b"  of 1 and a space too", b"da=1 \nback 00006\n", 14, 0);
    not_read(b"  of =0 too", b"da==0\nback 00006\n", 14, 0);
}

fn out_of_range() {
    not_read(
        b"read_sheet of toi 400 is refused 14 at 0",
        b"toi=400\nback 00008\n",
        14,
        0,
    );
    not_read(b"  of toi -1 too", b"toi=-1\nback 00007\n", 14, 0);
    not_read(b"  of itow 84 too", b"itow=84\nback 00008\n", 14, 0);
    not_read(b"  of tgd -4097 too", b"tgd=-4097\nback 00010\n", 14, 0);
    not_read(
        b"  of ecc 8589934592 too",
        b"ecc=8589934592\nback 00015\n",
        14,
        0,
    );
}

fn long() {
    not_read(
        b"read_sheet of a number of 40 digits is refused 14 at 0",
        b"toi=1000000000000000000000000000000000000000\nback 00045\n",
        14,
        0,
    );
    not_read(
        b"  of 2 to the 64 too",
        b"toi=18446744073709551616\nback 00025\n",
        14,
        0,
    );
    not_read(
        b"  of 39 zeros and a 1 too",
        b"da=0000000000000000000000000000000000000001\nback 00044\n",
        14,
        0,
    );
}
