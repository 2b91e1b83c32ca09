// The order of symbols: those of subframe 2, then those of subframe 3, fill rows and leave by columns.
ghost use Rattle.std.specs.Prelude.{◌≡◌, ◌++◌, ◌+◌, ◌<◌, ◌≤◌, eqb, ltb, length, get_or};
ghost use Rattle.words.specs.Bits.{first_not_bit};
ghost use Rattle.words.specs.Refusal.{LENGTH, NOT_A_BIT, done_if};
ghost use Rattle.parity.specs.Order.{SYMBOLS, leaves_at, stood_at, symbols_at, interleaved, place_in_order, place_before, right_lengths, interleave_answer, interleave_bytes, deinterleave_answer, deinterleave_block2, deinterleave_block3};

use words::bits::{first_not_bit, judge_bits};
use words::refusal::{Refusal, Rule};

// The symbols of subframe 2, of subframe 3 and of both, and the rows and columns that they fill.
const SYMBOLS_2: usize = 1200;

const SYMBOLS_3: usize = 548;

const SYMBOLS: usize = 1748;

const ROWS: usize = 38;

const COLUMNS: usize = 46;

// ---- places

// Where the symbol at `index` leaves.
// This and `stood_at` are two rules of a line, each the other backwards; with rows and columns as parameters they would need bounds. So are
// `place_in_order` and `place_before`, which are public.
fn leaves_at(index: usize) -> usize
    ensures { result ≡ leaves_at index }
{
    ROWS * (index % COLUMNS) + index / COLUMNS
}

// Where the symbol stood that leaves at `index`.
fn stood_at(index: usize) -> usize
    ensures { result ≡ stood_at index }
{
    COLUMNS * (index % ROWS) + index / ROWS
}

// Whether one of the symbols has this index; refused 1 at 0 past the last one.
fn judge_index(index: usize) -> Result<(), Refusal>
    ensures { result ≡ done_if (ltb index SYMBOLS) LENGTH 0 }
{
    let is_symbol = index < SYMBOLS;
    if !is_symbol {
        return Err(Rule::Length.at(0));
    }
    Ok(())
}

// Where the symbol at `index` leaves; refused 1 at 0 past the last symbol.
pub fn place_in_order(index: usize) -> Result<usize, Refusal>
    ensures { result ≡ place_in_order index }
{
    judge_index(index)?;
    Ok(leaves_at(index))
}

// Where the symbol stood that leaves at `index`; refused 1 at 0 past the last symbol.
pub fn place_before(index: usize) -> Result<usize, Refusal>
    ensures { result ≡ place_before index }
{
    judge_index(index)?;
    Ok(stood_at(index))
}

// ---- judging

// Refused 1 at 0 unless the blocks of subframe 2 and 3 and the symbols of both have their lengths.
fn judge_lengths(count2: usize, count3: usize, count: usize) -> Result<(), Refusal>
    ensures { result ≡ done_if (right_lengths count2 count3 count) LENGTH 0 }
{
    let fit = count2 == SYMBOLS_2 && count3 == SYMBOLS_3 && count == SYMBOLS;
    if !fit {
        return Err(Rule::Length.at(0));
    }
    Ok(())
}

// Refused 2 at the first byte that is neither 0 nor 1, counted from the `before` others on that stand before these.
fn judge_bits_behind(before: usize, bytes: &[u8]) -> Result<(), Refusal>
    requires { before + length bytes.now ≤ SYMBOLS }
    ensures { result ≡ done_if (eqb (first_not_bit bytes.now) (length bytes.now)) NOT_A_BIT (before + first_not_bit bytes.now) }
{
    let bad = first_not_bit(bytes);
    if bad != bytes.len() {
        return Err(Rule::NotABit.at(before + bad));
    }
    Ok(())
}

// ---- into order

// The symbol at `index` of the blocks one after another.
// Both blocks are lent one by one, since `interleave` is public and takes them so.
fn symbol_at(block2: &[u8], block3: &[u8], index: usize) -> u8
    requires { index < length block2.now + length block3.now }
    ensures { result ≡ get_or (block2.now ++ block3.now) index 0 }
{
    if index < block2.len() {
        return block2[index];
    }
    block3[index - block2.len()]
}

// The symbols of both blocks as they leave.
// This reads two slices and writes one, `take_block` and `deinterleave` the other way: one loop for both would take a closure
// and be no plainer.
fn put_in_order(block2: &[u8], block3: &[u8], symbols: &mut [u8])
    requires { (length block2.now + length block3.now ≡ SYMBOLS) × (length symbols.old ≡ SYMBOLS) }
    ensures { symbols.new ≡ interleaved (block2.now ++ block3.now) }
{
    for (i, symbol) in symbols.iter_mut().enumerate() {
        *symbol = symbol_at(block2, block3, stood_at(i));
    }
}

// The symbols of both blocks as they leave; refused 1 at 0 unless the lengths are right, then 2 at the first byte that is no bit,
// counted over the blocks one after another.
pub fn interleave(block2: &[u8], block3: &[u8], symbols: &mut [u8]) -> Result<(), Refusal>
    ensures { (result ≡ interleave_answer block2.now block3.now symbols.old)
        × (symbols.new ≡ interleave_bytes block2.now block3.now symbols.old) }
{
    judge_lengths(block2.len(), block3.len(), symbols.len())?;
    judge_bits(block2)?;
    judge_bits_behind(SYMBOLS_2, block3)?;
    put_in_order(block2, block3, symbols);
    Ok(())
}

// ---- out of order

// The symbols of a block, the first of which stood at `from`.
fn take_block(symbols: &[u8], from: usize, block: &mut [u8])
    requires { (length symbols.now ≡ SYMBOLS) × (from + length block.old ≤ SYMBOLS) }
    ensures { block.new ≡ symbols_at leaves_at symbols.now from (length block.old) }
{
    for (i, symbol) in block.iter_mut().enumerate() {
        *symbol = symbols[leaves_at(from + i)];
    }
}

// The blocks of the symbols as they left; refused 1 at 0 unless the lengths are right, then 2 at the first byte that is no bit.
pub fn deinterleave(symbols: &[u8], block2: &mut [u8], block3: &mut [u8]) -> Result<(), Refusal>
    ensures { (result ≡ deinterleave_answer symbols.now block2.old block3.old)
        × (block2.new ≡ deinterleave_block2 symbols.now block2.old block3.old)
        × (block3.new ≡ deinterleave_block3 symbols.now block2.old block3.old) }
{
    judge_lengths(block2.len(), block3.len(), symbols.len())?;
    judge_bits(symbols)?;
    take_block(symbols, 0, block2);
    take_block(symbols, SYMBOLS_2, block3);
    Ok(())
}
