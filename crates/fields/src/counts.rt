// Counts taken from bits and put into bits, field by field.
ghost use Rattle.std.specs.Prelude.{◌≡◌, true, ◌++◌, ◌+◌, ◌≤◌, ◌<◌, length, take, drop};
ghost use Rattle.std.proofs.lemmas.List.Edits.{sets};
ghost use Rattle.words.specs.Refusal.{number};
ghost use Rattle.fields.specs.Table.{fields_in, bit_count, usable};
ghost use Rattle.fields.specs.Counts.{count_of, counts_in, bits_for, bits_of_counts, in_range, first_out, out_answer};

use super::rows::fields_of;
use super::table::{Field, Table};
use words::bits::{magnitude, put_number, put_signed, take_number, take_signed};
use words::refusal::{Refusal, Rule};

// The count is in the field's range.
pub fn in_range(field: Field, count: i64) -> bool
    ensures { result ≡ in_range field count }
{
    let below = count < 0;
    (field.signed || !below) && (field.least..=field.most).contains(&magnitude(count))
}

impl Field {
    // The count that the field's bits from `at` on stand for.
    fn read(self, bits: &[u8], at: usize) -> i64
        requires { self.width < 64 }
        ensures { result ≡ count_of self (take self.width (drop at bits.now)) }
    {
        if self.signed {
            take_signed(bits, at, self.width)
        } else {
            take_number(bits, at, self.width) as i64
        }
    }

    // The bits of a count that is in range, from `at` on; the other bytes stay.
    fn write(self, count: i64, bits: &mut [u8], at: usize)
        requires { (in_range self count ≡ true) × (usable self ≡ true) × (at + self.width ≤ length bits.old) }
        ensures { bits.new ≡ sets bits.old at (bits_for self count) }
    {
        if self.signed {
            put_signed(bits, at, self.width, count).unwrap();
        } else {
            put_number(bits, at, self.width, magnitude(count)).unwrap();
        }
    }
}

// Counts are lent as many as the table has fields; how many those are the table alone says, so no array type does.
impl Table {
    // The counts of the fields, whose bits start at `from`.
    pub(crate) fn read(self, bits: &[u8], from: usize, counts: &mut [i64])
        requires { (length counts.old ≡ length (fields_in self)) × (from + bit_count (fields_in self) ≤ length bits.now) }
        ensures { counts.new ≡ counts_in (fields_in self) (drop from bits.now) }
    {
        let mut at = from;
        // by place and not by `zip`: of a slice that is written so a proof knows no element.
        for (k, field) in fields_of(self).iter().enumerate() {
            counts[k] = field.read(bits, at);
            at += field.width;
        }
    }

    // Refused by the rule at the first bit, from 1, of the first field whose count is out of range; `from` bits stand before the fields.
    pub(crate) fn judge(self, counts: &[i64], from: usize, rule: Rule) -> Result<(), Refusal>
        requires { (length counts.now ≡ length (fields_in self)) × (from ≤ 1000) }
        ensures { result ≡ out_answer (number rule) from (fields_in self) counts.now }
    {
        let mut at = from;
        for (field, count) in fields_of(self).iter().zip(counts) {
            if !in_range(*field, *count) {
                return Err(rule.at(at + 1));
            }
            at += field.width;
        }
        Ok(())
    }

    // The bits of counts that are in range, from `from` on; the other bytes stay.
    pub(crate) fn write(self, counts: &[i64], bits: &mut [u8], from: usize)
        requires { (length counts.now ≡ length (fields_in self)) × ((from + bit_count (fields_in self) ≤ length bits.old)
            × (first_out from (fields_in self) counts.now ≡ 0)) }
        ensures { bits.new
            ≡ take from bits.old ++ (bits_of_counts (fields_in self) counts.now
            ++ drop (from + bit_count (fields_in self)) bits.old) }
    {
        let mut at = from;
        for (field, count) in fields_of(self).iter().zip(counts) {
            field.write(*count, bits, at);
            at += field.width;
        }
    }
}
