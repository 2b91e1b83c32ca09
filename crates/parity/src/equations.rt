// The equations of a block, and the first that isn't met.
ghost use Rattle.std.specs.Prelude.{◌≡◌, ◌+◌, ◌%◌, length};
ghost use Rattle.words.specs.Refusal.{number};
ghost use Rattle.tables.specs.Coordinates.{symbol_at};
ghost use Rattle.tables.specs.Matrix.{matrix_of};
ghost use Rattle.parity.specs.Equations.{last_sum, first_odd, first_unmet, equation_number, is_block, met_answer};
ghost use Rattle.parity.specs.Laws.Passed.{side_by_side, if_any};

use tables::matrix::{Subframe, Submatrix, add, equations};
use words::bits::judge_bits;
use words::refusal::{Refusal, Rule};

// A block has this many symbols: as many of parity as of data.
pub(crate) fn is_block(subframe: Subframe, count: usize) -> bool
    ensures { result ≡ is_block (matrix_of subframe) count }
{
    let n = equations(subframe);
    count == n + n
}

// A block of a subframe: as many parity symbols as data symbols.
#[derive(Clone, Copy)]
struct Block<'a> {
    subframe: Subframe,
    symbols: &'a [u8],
    ghost fits: { length symbols.now ≡ (matrix_of subframe).equations + (matrix_of subframe).equations },
}

// The number, from 1, of the first odd sum.
fn first_odd(sums: &[u8]) -> Option<usize>
    ensures { result ≡ if_any (first_odd (symbol_at sums.now) 1 (length sums.now)) }
{
    let k = sums.iter().position(|sum| sum % 2 != 0)?;
    Some(k + 1)
}

impl Block<'_> {
    // Adds three submatrices that stand side by side, over the data symbols, p1 and p2.
    fn add_side_by_side(
        &self,
        left: Submatrix,
        middle: Submatrix,
        right: Submatrix,
        sums: &mut [u8],
    )
        ensures { sums.new ≡ side_by_side (matrix_of self.now.subframe) left middle right self.now.symbols.now sums.old }
    {
        let (data, parity) = self.symbols.split_at(equations(self.subframe));
        let (p1, p2) = parity.split_at(1);
        add(self.subframe, left, data, sums);
        add(self.subframe, middle, p1, sums);
        add(self.subframe, right, p2, sums);
    }

    // The sum modulo 2 of the last equation.
    fn last_sum(&self) -> u8
        ensures { result ≡ last_sum (matrix_of self.now.subframe) self.now.symbols.now % 2 }
    {
        let mut sum = [0u8; 1];
        self.add_side_by_side(Submatrix::C, Submatrix::D, Submatrix::E, &mut sum);
        sum[0] % 2
    }

    // The number, from 1, of the first equation that isn't met.
    fn first_unmet(&self) -> Option<usize>
        ensures { result ≡ if_any (first_unmet (matrix_of self.now.subframe) self.now.symbols.now) }
    {
        let n = equations(self.subframe);
        let mut room = [0u8; 600];
        let sums = &mut room[..n];
        self.add_side_by_side(Submatrix::A, Submatrix::B, Submatrix::T, sums);
        sums[n - 1] = self.last_sum();
        first_odd(sums)
    }
}

// The rule for an equation that isn't met.
// A match of two arms: a table or a closure is no plainer, and `check_rule` of frames gives other rules.
fn equation_rule(subframe: Subframe) -> Rule
    ensures { number result ≡ equation_number subframe }
{
    match subframe {
        Subframe::Two => Rule::Equation2,
        Subframe::Three => Rule::Equation3,
    }
}

// Whether a block of 1200 symbols of subframe 2, or of 548 of subframe 3, meets every equation. Refused 1 at 0 for another length, 2 at
// the first byte that is neither 0 nor 1, then 4 or 7 at the first equation that isn't met.
pub fn first_unmet(subframe: Subframe, block: &[u8]) -> Result<(), Refusal>
    ensures { result ≡ met_answer subframe block.now }
{
    if !is_block(subframe, block.len()) {
        return Err(Rule::Length.at(0));
    }
    judge_bits(block)?;
    let block = Block {
        subframe,
        symbols: block,
    };
    match block.first_unmet() {
        None => Ok(()),
        Some(place) => Err(equation_rule(subframe).at(place)),
    }
}
