// Numbers of a sheet, read and written.
ghost use Rattle.std.specs.Prelude.{◌≡◌, cond, List, ℕ, ◌+◌, ◌-◌, ◌*◌, ◌≤◌, ◌<◌, min, drop, Some, None};
ghost use Rattle.fields.specs.Counts.{in_range};
ghost use Rattle.sheets.specs.Number.{decimal};
ghost use Rattle.sheets.specs.Laws.Steps.{digits_read, plain_read, negative_read, positive_read, number_read};

use fields::counts::in_range;
use fields::table::Field;
use std::marker::Model;

// From here on a number is out of every field's range, and is told apart no further.
const BEYOND: u64 = 1099511627776;

// The number with one digit more, at most BEYOND.
fn with_digit(number: u64, digit: u8) -> u64
    requires { (number ≤ BEYOND) × (48 ≤ digit) × (digit ≤ 57) }
    ensures { result ≡ min (number * 10 + (digit - 48)) BEYOND }
{
    let longer = number * 10 + u64::from(digit - b'0');
    longer.min(BEYOND)
}

// What digits stand for, at most BEYOND.
pub(crate) fn read_digits(text: &[u8]) -> Option<u64>
    ensures { result ≡ digits_read text.now }
{
    let mut number: u64 = 0;
    for digit in text {
        match *digit {
            b'0'..=b'9' => number = with_digit(number, *digit),
            _ => return None,
        }
    }
    Some(number)
}

// The same of a number without a sign: at least one digit, and no leading zero unless it is the only one.
fn read_plain(text: &[u8]) -> Option<u64>
    ensures { result ≡ plain_read text.now }
{
    match text {
        [] | [b'0', _, ..] => None,
        _ => read_digits(text),
    }
}

// The count, where it is in the field's range.
fn within(field: Field, count: i64) -> Option<i64>
    ensures { result ≡ cond (in_range field count) (Some count) None }
{
    in_range(field, count).then_some(count)
}

// The number behind a `-`.
fn read_negative(field: Field, text: &[u8]) -> Option<i64>
    requires { field.most + 1 < BEYOND }
    ensures { result ≡ negative_read field text.now }
{
    let number = read_plain(text)?;
    if number == 0 {
        return None;
    }
    within(field, -(number as i64))
}

// The number without a sign.
// Two functions: behind a `-` zero is no number, and the sign as a parameter would be a switch. A field and its text come as `judge_line` has
// them. `Field` is public and anyone may set its range, so that a number fits it is asked for.
fn read_positive(field: Field, text: &[u8]) -> Option<i64>
    requires { field.most + 1 < BEYOND }
    ensures { result ≡ positive_read field text.now }
{
    let number = read_plain(text)?;
    within(field, number as i64)
}

// The number that a text stands for, in the field's range.
pub(crate) fn read_number(field: Field, text: &[u8]) -> Option<i64>
    requires { field.most + 1 < BEYOND }
    ensures { result ≡ number_read field text.now }
{
    match text {
        [b'-', digits @ ..] => read_negative(field, digits),
        _ => read_positive(field, text),
    }
}

// ---- writing

// The digits of a number of 64 bits, which has at most 20, behind the bytes that it has no digit for.
#[derive(Drop)]
pub(crate) struct Digits {
    bytes: [u8; 20],
    from: usize,
}

// Clauses see the digits.
impl Model for Digits {
    ghost Value = { List ℕ };

    ghost view = { λ digits. drop digits.from digits.bytes };

    ghost invariant = { λ digits. digits.from ≤ 20 };
}

impl Digits {
    // A `while`: how many digits there are shows only as they are taken off, the last one first.
    pub(crate) fn of(number: u64) -> Digits
        ensures { result ≡ decimal number }
    {
        let mut bytes = [0u8; 20];
        let mut from = 19;
        let mut rest = number;
        while 10 <= rest {
            bytes[from] = b'0' + (rest % 10) as u8;
            from -= 1;
            rest /= 10;
        }
        bytes[from] = b'0' + rest as u8;
        Digits { bytes, from }
    }

    pub(crate) fn as_slice(&self) -> &[u8]
        ensures { result.now ≡ self.now }
    {
        &self.bytes[self.from..]
    }
}
