// The tables of fields: of subframe 2, and of the pages of subframe 3.
ghost use Rattle.std.specs.Prelude.{◌≡◌, length, get_or};
ghost use Rattle.fields.specs.Table.{fields_in, no_field, bit_count};

use super::rows::fields_of;

// A field: its width in bits, whether it has a sign, and its range. With a sign the counts go from -(most + 1) to most, and `least` is 0.
#[derive(Clone, Copy, PartialEq, Eq, Debug)]
pub struct Field {
    pub width: usize,
    pub signed: bool,
    pub least: u64,
    pub most: u64,
}

// The tables; a page that is carried as bits has no fields.
#[derive(Clone, Copy, PartialEq, Eq, Debug)]
pub enum Table {
    Subframe2,
    Page1,
    Page6,
    NoFields,
}

// What stands where a table has no row: no bits, and only the count 0.
const NO_FIELD: Field = Field {
    width: 0,
    signed: false,
    least: 0,
    most: 0,
};

// How many fields a table has.
pub fn field_count(table: Table) -> usize
    ensures { result ≡ length (fields_in table) }
{
    fields_of(table).len()
}

// How many bits its fields take: the sum of its rows' widths, which is not added up anew at each call.
#[tactic(auto, using(crate::specs::Laws::Table::bits_subframe2, crate::specs::Laws::Table::bits_page1, crate::specs::Laws::Table::bits_page6, crate::specs::Laws::Table::bits_no_fields))]
pub fn bit_count(table: Table) -> usize
    ensures { result ≡ bit_count (fields_in table) }
{
    match table {
        Table::Subframe2 => 566,
        Table::Page1 => 162,
        Table::Page6 => 236,
        Table::NoFields => 0,
    }
}

// The field k of a table, from 0; past the last one, a field of no bits.
// Not an Option: its clause, by `no_field`, promises a field of no bits.
pub fn field_at(table: Table, k: usize) -> Field
    ensures { result ≡ get_or (fields_in table) k no_field }
{
    fields_of(table).get(k).copied().unwrap_or(NO_FIELD)
}
