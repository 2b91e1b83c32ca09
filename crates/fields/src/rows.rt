// The rows of the tables, as specs/Table.antt has them.
ghost use Rattle.std.specs.Prelude.{◌≡◌};
ghost use Rattle.fields.specs.Table.{fields_in};

use super::table::{Field, Table};

// A field without a sign: its width in bits, its least count and its most.
macro_rules! unsigned {
    ($width:expr, $least:expr, $most:expr) => {
        Field {
            width: $width,
            signed: false,
            least: $least,
            most: $most,
        }
    };
}

// A field in two's complement: its width in bits, all of whose counts it takes.
macro_rules! signed {
    ($width:expr) => {
        Field {
            width: $width,
            signed: true,
            least: 0,
            most: (1 << ($width - 1)) - 1,
        }
    };
}

// The 33 fields of subframe 2, in order from bit 1.
static SUBFRAME2: [Field; 33] = [
    unsigned!(13, 0, 8191), // wn
    unsigned!(8, 0, 83), // itow
    unsigned!(11, 0, 2015), // top
    unsigned!(1, 0, 1), // health
    signed!(5), // uraoe
    unsigned!(11, 0, 2015), // toe
    signed!(26), // da
    signed!(25), // adot
    signed!(17), // dn0
    signed!(23), // dn0dot
    signed!(33), // m0
    unsigned!(33, 0, 8589934591), // ecc
    signed!(33), // omega
    signed!(33), // omega0
    signed!(33), // i0
    signed!(17), // domegadot
    signed!(15), // idot
    signed!(16), // cis
    signed!(16), // cic
    signed!(24), // crs
    signed!(24), // crc
    signed!(21), // cus
    signed!(21), // cuc
    signed!(5), // uraoc
    unsigned!(3, 0, 7), // uraoc1
    unsigned!(3, 0, 7), // uraoc2
    signed!(26), // af0
    signed!(20), // af1
    signed!(10), // af2
    signed!(13), // tgd
    signed!(13), // iscp
    signed!(13), // iscd
    unsigned!(1, 0, 1), // isf
];

// The 17 fields of page 1, in order from bit 15.
static PAGE1: [Field; 17] = [
    signed!(16), // A0
    signed!(13), // A1
    signed!(7), // A2
    signed!(8), // leap seconds
    unsigned!(16, 0, 37799), // tot
    unsigned!(13, 0, 8191), // WNot
    unsigned!(13, 0, 8191), // WNLSF
    unsigned!(4, 1, 7), // DN
    signed!(8), // future leap seconds
    signed!(8), // alpha0
    signed!(8), // alpha1
    signed!(8), // alpha2
    signed!(8), // alpha3
    signed!(8), // beta0
    signed!(8), // beta1
    signed!(8), // beta2
    signed!(8), // beta3
];

// The text page, and a byte of text.
const TEXT_PAGE: Field = unsigned!(4, 0, 15);

const BYTE: Field = unsigned!(8, 0, 255);

// The 30 fields of page 6, in order from bit 15.
static PAGE6: [Field; 30] = [
    TEXT_PAGE, BYTE, BYTE, BYTE, BYTE, BYTE, BYTE, BYTE, BYTE, BYTE, BYTE, BYTE, BYTE, BYTE, BYTE,
    BYTE, BYTE, BYTE, BYTE, BYTE, BYTE, BYTE, BYTE, BYTE, BYTE, BYTE, BYTE, BYTE, BYTE, BYTE,
];

// The fields of a table, in order.
pub(crate) fn fields_of(table: Table) -> &'static [Field]
    ensures { result.now ≡ fields_in table }
{
    match table {
        Table::Subframe2 => &SUBFRAME2,
        Table::Page1 => &PAGE1,
        Table::Page6 => &PAGE6,
        Table::NoFields => &[],
    }
}
