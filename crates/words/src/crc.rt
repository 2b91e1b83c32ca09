// The check bits, CRC-24Q.
ghost use Rattle.std.specs.Prelude.{◌≡◌, ◌^◌, ◌<◌, eqb};
ghost use Rattle.words.specs.Crc.{fed, remainder_of, check_of, check_answer, check_bytes};

use super::bits::put_number;
use super::refusal::{Refusal, Rule};

// x^24 + x^23 + x^18 + x^17 + x^14 + x^11 + x^10 + x^7 + x^6 + x^5 + x^4 + x^3 + x + 1
const POLYNOMIAL: u32 = 0x1864CFB;

// How many check bits a block ends with.
const CHECK_BITS: usize = 24;

// The register with one more bit behind it; where that gives x^24, the polynomial is taken away.
fn feed(register: u32, bit: u8) -> u32
    requires { register < 2 ^ 24 }
    ensures { result ≡ fed register bit }
{
    let longer = register * 2 + u32::from(bit % 2);
    if longer < 0x1000000 {
        longer
    } else {
        longer ^ POLYNOMIAL
    }
}

// The remainder of the bits: 0 for a right block of data and check bits.
pub fn remainder(bits: &[u8]) -> u32
    ensures { result ≡ remainder_of bits.now }
{
    let mut register: u32 = 0;
    for bit in bits {
        register = feed(register, *bit);
    }
    register
}

// The check bits of the bits, as a number.
// It goes on where `remainder` ends, with 24 zeros: one function would do both by a switch.
pub fn check_bits(bits: &[u8]) -> u32
    ensures { result ≡ check_of bits.now }
{
    let mut register = remainder(bits);
    for _ in 0..CHECK_BITS {
        register = feed(register, 0);
    }
    register
}

// The check bits of all but the last 24 places, put into those; refused 1 at 0 for a block of fewer than 24.
pub fn put_check(block: &mut [u8]) -> Result<(), Refusal>
    ensures { (result ≡ check_answer block.old) × (block.new ≡ check_bytes block.old) }
{
    if block.len() < CHECK_BITS {
        return Err(Rule::Length.at(0));
    }
    let count = block.len() - CHECK_BITS;
    let check = u64::from(check_bits(&block[..count]));
    put_number(block, count, CHECK_BITS, check)
}

// A block of data and check bits is right.
pub fn is_right(block: &[u8]) -> bool
    ensures { result ≡ eqb (remainder_of block.now) 0 }
{
    remainder(block) == 0
}
