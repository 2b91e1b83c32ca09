// The list of a sheet: toi, and the names of subframe 2, each with its field.
ghost use Rattle.std.specs.Prelude.{◌≡◌, get_or};
ghost use Rattle.fields.specs.Table.{no_field};
ghost use Rattle.sheets.specs.List.{sheet_fields};
ghost use Rattle.sheets.specs.Laws.Steps.{listed_at};

use fields::table::{Field, Table, field_at};
use words::time::LAST_TOI;

// How many names the list has: toi, and the 33 of subframe 2.
pub const LISTED: usize = 34;

// The names of the list, as specs/List.antt has them.
pub(crate) static NAMES: [&[u8]; LISTED] = [
    b"toi",
    b"wn",
    b"itow",
    b"top",
    b"health",
    b"uraoe",
    b"toe",
    b"da",
    b"adot",
    b"dn0",
    b"dn0dot",
    b"m0",
    b"ecc",
    b"omega",
    b"omega0",
    b"i0",
    b"domegadot",
    b"idot",
    b"cis",
    b"cic",
    b"crs",
    b"crc",
    b"cus",
    b"cuc",
    b"uraoc",
    b"uraoc1",
    b"uraoc2",
    b"af0",
    b"af1",
    b"af2",
    b"tgd",
    b"iscp",
    b"iscd",
    b"isf",
];

// The name's position in the list, from 0, where it is on it.
pub(crate) fn name_position(name: &[u8]) -> Option<usize>
    ensures { result ≡ listed_at name.now }
{
    NAMES.iter().position(|listed| *listed == name)
}

// The field of the name at this position, from 0; past the last one, a field of no bits.
// Not an Option: it hands on what `field_at` gives. The names are of the sheet and the fields those of `fields`, in the same order: one list
// of both would say the fields twice.
pub(crate) fn listed_field(k: usize) -> Field
    ensures { result ≡ get_or sheet_fields k no_field }
{
    if k == 0 {
        return Field {
            width: 9,
            signed: false,
            least: 0,
            most: LAST_TOI as u64,
        };
    }
    field_at(Table::Subframe2, k - 1)
}
