// Bits, one to a byte, the most significant first, and the numbers that they stand for.
ghost use Rattle.std.specs.Prelude.{◌≡◌, true, ◌+◌, ◌-◌, ◌%◌, ◌^◌, ◌≤◌, ◌<◌, pos, negsuc, eqb, leb, ltb, length};
ghost use Rattle.std.proofs.lemmas.List.Edits.{sets};
ghost use Rattle.std.specs.Int.Signed.{mag};
ghost use Rattle.words.specs.Bits.{first_not_bit, bits_judged, value_of, bits_of, signed_of, unsigned_of, bits_at, holds_signed, number_answer, number_bytes, signed_answer, signed_bytes, copy_answer, copy_bytes};

use super::refusal::{Refusal, Rule};

// No byte is over 1. The pass does not end early, so that the compiler can take many bytes at a time.
fn are_bits(bytes: &[u8]) -> bool
    ensures { result ≡ eqb (first_not_bit bytes.now) (length bytes.now) }
{
    let mut seen: u8 = 0;
    for byte in bytes {
        seen |= *byte;
    }
    seen <= 1
}

// The index of the first byte that is neither 0 nor 1, or the length.
// Not an Option: its clause, by the definition `first_not_bit`, promises the length.
pub fn first_not_bit(bytes: &[u8]) -> usize
    ensures { result ≡ first_not_bit bytes.now }
{
    if are_bits(bytes) {
        return bytes.len();
    }
    bytes
        .iter()
        .position(|byte| 1 < *byte)
        .unwrap_or(bytes.len())
}

// Whether all bytes are bits: refused 2 at the first that is neither 0 nor 1.
pub fn judge_bits(bytes: &[u8]) -> Result<(), Refusal>
    ensures { result ≡ bits_judged bytes.now }
{
    let bad = first_not_bit(bytes);
    if bad != bytes.len() {
        return Err(Rule::NotABit.at(bad));
    }
    Ok(())
}

// ---- taking: with and without a sign are two functions, here and in putting, since each goes by definitions of its own; a trait over both
// takes more lines than it saves. `at` and `width` come apart, as the public functions take them.

// `width` bytes from `at` on, at most 64, as far as they are there.
fn bits_at(bytes: &[u8], at: usize, width: usize) -> &[u8]
    ensures { result.now ≡ bits_at bytes.now at width }
{
    let rest = &bytes[at.min(bytes.len())..];
    &rest[..width.min(64).min(rest.len())]
}

fn low_bit(byte: u8) -> u64
    ensures { result ≡ byte % 2 }
{
    u64::from(byte % 2)
}

// The number that at most 64 bits stand for.
fn value_of(bits: &[u8]) -> u64
    requires { length bits.now ≤ 64 }
    ensures { result ≡ value_of bits.now }
{
    let mut number: u64 = 0;
    for bit in bits {
        number = number * 2 + low_bit(*bit);
    }
    number
}

// The largest number of `width` bits.
fn largest(width: usize) -> u64
    requires { (0 < width) × (width ≤ 64) }
    ensures { result ≡ 2 ^ width - 1 }
{
    u64::MAX >> (64 - width)
}

// -(n + 1), which is no conversion of the library.
fn below_zero(n: u64) -> i64
    requires { n < 2 ^ 63 }
    ensures { result ≡ negsuc n }
{
    -1 - n as i64
}

// n, by `as`: the clause says that it fits, and `try_from` would answer what cannot be.
fn not_below_zero(n: u64) -> i64
    requires { n < 2 ^ 63 }
    ensures { result ≡ pos n }
{
    n as i64
}

// The number with a sign that at most 64 bits stand for.
fn signed_of(bits: &[u8]) -> i64
    requires { length bits.now ≤ 64 }
    ensures { result ≡ signed_of bits.now }
{
    let Some(first) = bits.first() else {
        return 0;
    };
    let number = value_of(bits);
    let negative = low_bit(*first) == 1;
    if negative {
        below_zero(largest(bits.len()) - number)
    } else {
        not_below_zero(number)
    }
}

// The number that `width` bits from `at` on stand for; of more than 64 bits, the first 64; past the end there are none.
pub fn take_number(bytes: &[u8], at: usize, width: usize) -> u64
    ensures { result ≡ value_of (bits_at bytes.now at width) }
{
    value_of(bits_at(bytes, at, width))
}

// The same with a sign: less 2^width when the first bit is one.
pub fn take_signed(bytes: &[u8], at: usize, width: usize) -> i64
    ensures { result ≡ signed_of (bits_at bytes.now at width) }
{
    signed_of(bits_at(bytes, at, width))
}

// ---- putting

// The number is n or -(n + 1): that n. Not `unsigned_abs`, which gives n + 1; must-fail edits quote the line.
pub fn magnitude(z: i64) -> u64
    ensures { result ≡ mag z }
{
    if z < 0 { (-1 - z) as u64 } else { z as u64 }
}

// `width` bits hold the number.
fn holds_number(number: u64, width: usize) -> bool
    ensures { result ≡ ltb number (2 ^ width) }
{
    let whole = 64 <= width;
    whole || number >> width == 0
}

// `width` bits hold the number with a sign.
fn holds_signed(z: i64, width: usize) -> bool
    ensures { result ≡ holds_signed width z }
{
    (1..=64).contains(&width) && holds_number(magnitude(z), width - 1)
}

// `width` bytes from `at` on lie within `count`.
fn is_inside(count: usize, at: usize, width: usize) -> bool
    ensures { result ≡ leb (at + width) count }
{
    at <= count && width <= count - at
}

// The number whose bits stand for `z` with a sign.
fn unsigned_of(z: i64, width: usize) -> u64
    requires { holds_signed width z ≡ true }
    ensures { result ≡ unsigned_of width z }
{
    if z < 0 {
        largest(width) - magnitude(z)
    } else {
        magnitude(z)
    }
}

// The `width` low bits of the number from `at` on; the other bytes stay.
fn put_bits(bytes: &mut [u8], at: usize, width: usize, number: u64)
    requires { at + width ≤ length bytes.old }
    ensures { bytes.new ≡ sets bytes.old at (bits_of width number) }
{
    let mut rest = number;
    // counts the bits that are left, not places: so the compiler sees that they lie side by side
    for left in (0..width).rev() {
        bytes[at + left] = (rest % 2) as u8;
        rest /= 2;
    }
}

// The `width` bits of the number from `at` on; refused 1 at 0 where they are not within the bytes or do not hold it.
pub fn put_number(bytes: &mut [u8], at: usize, width: usize, number: u64) -> Result<(), Refusal>
    ensures { (result ≡ number_answer bytes.old at width number) × (bytes.new ≡ number_bytes bytes.old at width number) }
{
    let fits = is_inside(bytes.len(), at, width) && holds_number(number, width);
    if !fits {
        return Err(Rule::Length.at(0));
    }
    put_bits(bytes, at, width, number);
    Ok(())
}

// The same with a sign.
pub fn put_signed(bytes: &mut [u8], at: usize, width: usize, number: i64) -> Result<(), Refusal>
    ensures { (result ≡ signed_answer bytes.old at width number) × (bytes.new ≡ signed_bytes bytes.old at width number) }
{
    let fits = is_inside(bytes.len(), at, width) && holds_signed(number, width);
    if !fits {
        return Err(Rule::Length.at(0));
    }
    put_bits(bytes, at, width, unsigned_of(number, width));
    Ok(())
}

// ---- copying

// Copies bytes over as many others; refused 1 at 0 where they are not as many. For callers: the library itself knows the lengths where it
// copies, and does so by `copy_from_slice`.
pub fn copy(from: &[u8], into: &mut [u8]) -> Result<(), Refusal>
    ensures { (result ≡ copy_answer from.now into.old) × (into.new ≡ copy_bytes from.now into.old) }
{
    let unlike = from.len() != into.len();
    if unlike {
        return Err(Rule::Length.at(0));
    }
    into.copy_from_slice(from);
    Ok(())
}
