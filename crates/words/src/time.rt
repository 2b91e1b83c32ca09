// The time word.
ghost use Rattle.std.specs.Prelude.{◌≡◌, ◌^◌, ◌<◌, length};
ghost use Rattle.words.specs.Bits.{bits_of};
ghost use Rattle.words.specs.Time.{one_shift, time_word, time_answer, time_bytes, nearest_time, time_read};

use super::bits::{judge_bits, take_number};
use super::refusal::{Refusal, Rule};

// The times are 0 to this one.
pub const LAST_TOI: u16 = 399;

// What reading a time word gives: the time, and how many of the 52 symbols differ from its word.
#[derive(Clone, Copy, PartialEq, Eq)]
pub struct Time {
    pub toi: u16,
    pub corrected: u32,
}

// ---- writing

// The register, whose eight bits are the last eight symbols, after one shift: behind them comes the sum modulo 2 of the ones 1, 4, 5, 6, 7 and
// 8 places before.
fn shift(register: u8) -> u8
    ensures { bits_of 8 result ≡ one_shift (bits_of 8 register) }
{
    let next = (register
        ^ register >> 3
        ^ register >> 4
        ^ register >> 5
        ^ register >> 6
        ^ register >> 7)
        & 1;
    register << 1 | next
}

// The word of a time's nine bits.
fn write_word(out: &mut [u8], toi: u16)
    requires { length out.old ≡ 52 }
    ensures { out.new ≡ time_word toi }
{
    let top = (toi / 256 % 2) as u8;
    let mut register = (toi % 256) as u8;
    out[0] = top;
    for symbol in &mut out[1..] {
        *symbol = top ^ register >> 7;
        register = shift(register);
    }
}

// The word of a time from 0 to 399, into 52 bytes; refused 1 at 0 for another number of bytes, then 3 at 0 for another time.
pub fn write_time(out: &mut [u8], toi: u16) -> Result<(), Refusal>
    ensures { (result ≡ time_answer out.old toi) × (out.new ≡ time_bytes out.old toi) }
{
    if out.len() != 52 {
        return Err(Rule::Length.at(0));
    }
    if LAST_TOI < toi {
        return Err(Rule::Time.at(0));
    }
    write_word(out, toi);
    Ok(())
}

// ---- reading: words are packed into a number, the first symbol the most significant

// What turns the word of `toi - 1` into that of `toi` is the word of the bits in which the two differ, which are the lowest that is set and
// those below it: the words of 1, 3, 7 and so on to 511.
static TURNS: [u64; 9] = [
    0x00F3A905B4BE3,
    0x01E7520B697C6,
    0x03CEA416D2F8C,
    0x079D482DA5F18,
    0x0FC9395EFF5D3,
    0x1F9272BDFEBA6,
    0x3FD74C7E49CAF,
    0x7FAE98FC9395E,
    0x805167036C6A1,
];

// The time from 0 to 399 whose word differs in at most nine symbols.
fn nearest_time(symbols: u64) -> Result<Time, Refusal>
    requires { symbols < 2 ^ 52 }
    ensures { result ≡ nearest_time 400 0 (bits_of 52 symbols) }
{
    let mut word: u64 = 0;
    for toi in 0..=LAST_TOI {
        let corrected = (symbols ^ word).count_ones();
        let near = corrected <= 9;
        if near {
            return Ok(Time { toi, corrected });
        }
        word ^= TURNS[(toi + 1).trailing_zeros() as usize];
    }
    Err(Rule::Time.at(0))
}

// The time that 52 symbols stand for; refused 1, 2, then 3 at 0 where no word from 0 to 399 is within nine.
#[tactic(auto, using(crate::proofs::time::Laws::read_unfit, crate::proofs::time::Laws::read_refused, crate::proofs::time::Laws::read_found))]
pub fn read_time(symbols: &[u8]) -> Result<Time, Refusal>
    ensures { result ≡ time_read symbols.now }
{
    if symbols.len() != 52 {
        return Err(Rule::Length.at(0));
    }
    judge_bits(symbols)?;
    nearest_time(take_number(symbols, 0, 52))
}
