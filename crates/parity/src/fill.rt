// The parity symbols of a block.
ghost use Rattle.std.specs.Prelude.{◌≡◌, ◌∷◌, ◌++◌, ◌%◌, length};
ghost use Rattle.tables.specs.Coordinates.{solved};
ghost use Rattle.tables.specs.Matrix.{matrix_of};
ghost use Rattle.parity.specs.Equations.{last_sum};
ghost use Rattle.parity.specs.Fill.{p1_from, p2_from, fill_answer, fill_bytes};

use super::equations::is_block;
use tables::matrix::{Subframe, Submatrix, add, equations, solve};
use words::bits::judge_bits;
use words::refusal::{Refusal, Rule};

// Puts as p2 T⁻¹ times the sums.
fn put_p2(subframe: Subframe, sums: &[u8], p2: &mut [u8])
    requires { length p2.old ≡ length sums.now }
    ensures { p2.new ≡ solved (matrix_of subframe).t sums.now }
{
    p2.copy_from_slice(sums);
    solve(subframe, p2);
}

// The sum modulo 2 of the last equation with a p1 of 0, which is p1.
fn p1_by(subframe: Subframe, symbols: &[u8], p2: &[u8]) -> u8
    requires { length symbols.now ≡ (matrix_of subframe).equations }
    ensures { result ≡ last_sum (matrix_of subframe) (symbols.now ++ 0 ∷ p2.now) % 2 }
{
    let mut sum = [0u8; 1];
    add(subframe, Submatrix::C, symbols, &mut sum);
    add(subframe, Submatrix::D, &[0], &mut sum);
    add(subframe, Submatrix::E, p2, &mut sum);
    sum[0] % 2
}

// Puts p1 and p2 of the data symbols: p1 by the p2 that goes with a p1 of 0, and then the p2 that goes with p1.
fn put_parity(subframe: Subframe, symbols: &[u8], parity: &mut [u8])
    requires { (length symbols.now ≡ (matrix_of subframe).equations) × (length parity.old ≡ (matrix_of subframe).equations) }
    ensures { parity.new ≡ p1_from (matrix_of subframe) symbols.now ∷ p2_from (matrix_of subframe) symbols.now }
{
    let (p1, p2) = parity.split_at_mut(1);
    let mut room = [0u8; 600];
    let sums = &mut room[..p2.len()];
    add(subframe, Submatrix::A, symbols, sums);
    put_p2(subframe, sums, p2);
    p1[0] = p1_by(subframe, symbols, p2);
    add(subframe, Submatrix::B, p1, sums);
    put_p2(subframe, sums, p2);
}

// Puts the parity behind the data symbols of a block: 600 of 1200 symbols of subframe 2, or 274 of 548 of subframe 3. Refused 1 at 0 for
// another length, 2 at the first data symbol that is neither 0 nor 1.
pub fn fill_parity(subframe: Subframe, block: &mut [u8]) -> Result<(), Refusal>
    ensures { (result ≡ fill_answer subframe block.old) × (block.new ≡ fill_bytes subframe block.old) }
{
    if !is_block(subframe, block.len()) {
        return Err(Rule::Length.at(0));
    }
    let (data, parity) = block.split_at_mut(equations(subframe));
    judge_bits(data)?;
    put_parity(subframe, data, parity);
    Ok(())
}
