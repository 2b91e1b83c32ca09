// The record of subframe 2: 33 counts, and the 576 bits that stand for them.
ghost use Rattle.std.specs.Prelude.{◌≡◌, length};
ghost use Rattle.words.specs.Refusal.{given_by};
ghost use Rattle.fields.specs.Table.{fields_in};
ghost use Rattle.fields.specs.Counts.{counts_in};
ghost use Rattle.fields.specs.Subframe2.{BITS_2, fields_answer, fields_read, counts_judged, fields_written, fields_bytes};
ghost use Rattle.fields.specs.declared.table.Table.TheVariants.{Subframe2};

use super::table::{Table, bit_count};
use words::bits::{judge_bits, put_number, take_number};
use words::refusal::{Refusal, Rule};

// Where each field's count stands among the 33.
pub const WN: usize = 0;

pub const ITOW: usize = 1;

pub const TOP: usize = 2;

pub const HEALTH: usize = 3;

pub const URAOE: usize = 4;

pub const TOE: usize = 5;

pub const DA: usize = 6;

pub const ADOT: usize = 7;

pub const DN0: usize = 8;

pub const DN0DOT: usize = 9;

pub const M0: usize = 10;

pub const ECC: usize = 11;

pub const OMEGA: usize = 12;

pub const OMEGA0: usize = 13;

pub const I0: usize = 14;

pub const DOMEGADOT: usize = 15;

pub const IDOT: usize = 16;

pub const CIS: usize = 17;

pub const CIC: usize = 18;

pub const CRS: usize = 19;

pub const CRC: usize = 20;

pub const CUS: usize = 21;

pub const CUC: usize = 22;

pub const URAOC: usize = 23;

pub const URAOC1: usize = 24;

pub const URAOC2: usize = 25;

pub const AF0: usize = 26;

pub const AF1: usize = 27;

pub const AF2: usize = 28;

pub const TGD: usize = 29;

pub const ISCP: usize = 30;

pub const ISCD: usize = 31;

pub const ISF: usize = 32;

// The 33 counts of 576 bits; refused 6 at the first bit of the first field out of range, or at 567 for reserved bits.
fn judged_fields(bits: &[u8]) -> Result<[i64; 33], Refusal>
    requires { length bits.now ≡ BITS_2 }
    ensures { result ≡ given_by (fields_answer bits.now) (counts_in (fields_in Subframe2) bits.now) }
{
    let mut counts = [0i64; 33];
    Table::Subframe2.read(bits, 0, &mut counts);
    Table::Subframe2.judge(&counts, 0, Rule::Field2)?;
    let end = bit_count(Table::Subframe2);
    if take_number(bits, end, 10) != 0 {
        return Err(Rule::Field2.at(end + 1));
    }
    Ok(counts)
}

// The 33 counts of 576 bits; refused 1, 2, then 6 at the first bit of the first field out of range, or at 567 for reserved bits.
pub fn read_fields(bits: &[u8]) -> Result<[i64; 33], Refusal>
    ensures { result ≡ fields_read bits.now }
{
    if bits.len() != 576 {
        return Err(Rule::Length.at(0));
    }
    judge_bits(bits)?;
    judged_fields(bits)
}

// Judges 33 counts: refused 1 at 0 for another number of counts, then 6 at the first bit of the first field out of range.
pub fn judge_counts(counts: &[i64]) -> Result<(), Refusal>
    ensures { result ≡ counts_judged counts.now }
{
    let unfit = counts.len() != 33;
    if unfit {
        return Err(Rule::Length.at(0));
    }
    Table::Subframe2.judge(counts, 0, Rule::Field2)
}

// The bits of 33 counts, into 576 bytes; refused 1, then 6 at the first bit of the first field out of range.
pub fn write_fields(counts: &[i64], bits: &mut [u8]) -> Result<(), Refusal>
    ensures { (result ≡ fields_written counts.now bits.old)
        × (bits.new ≡ fields_bytes counts.now bits.old) }
{
    if bits.len() != 576 {
        return Err(Rule::Length.at(0));
    }
    judge_counts(counts)?;
    Table::Subframe2.write(counts, bits, 0);
    put_number(bits, bit_count(Table::Subframe2), 10, 0)
}
