// The block of a subframe: its bits, their check bits, its parity.
ghost use Rattle.std.specs.Prelude.{◌≡◌, ◌+◌, length, take};
ghost use Rattle.words.specs.Bits.{IsBits};
ghost use Rattle.words.specs.Refusal.{number};
ghost use Rattle.tables.specs.Matrix.{matrix_of};
ghost use Rattle.frames.specs.Frame.{bits_before, subframe_of};
ghost use Rattle.frames.specs.Read.{check_number};
ghost use Rattle.frames.specs.Laws.Steps.{block_answer};

use parity::equations::first_unmet;
use parity::fill::fill_parity;
use tables::matrix::{Subframe, equations};
use words::crc::{is_right, put_check};
use words::refusal::{Refusal, Rule};

// The rule for check bits that differ.
// A match of two arms: a table or a closure is no plainer, and `equation_rule` of parity gives other rules.
fn check_rule(subframe: Subframe) -> Rule
    ensures { number result ≡ check_number subframe }
{
    match subframe {
        Subframe::Two => Rule::Check2,
        Subframe::Three => Rule::Check3,
    }
}

// Whether a block meets every equation and has right check bits. Refused 4 or 7 at the first equation that isn't met, then 5 or 8 at 0.
pub(crate) fn judge_block(subframe: Subframe, block: &[u8]) -> Result<(), Refusal>
    ensures { result ≡ block_answer subframe block.now }
{
    first_unmet(subframe, block)?;
    let n = equations(subframe);
    if is_right(&block[..n]) {
        return Ok(());
    }
    Err(check_rule(subframe).at(0))
}

// Puts the check bits and the parity behind the bits of a subframe.
pub(crate) fn complete(subframe: Subframe, block: &mut [u8])
    requires { (length block.old ≡ (matrix_of subframe).equations + (matrix_of subframe).equations)
        × IsBits (take (bits_before subframe) block.old) }
    ensures { block.new ≡ subframe_of subframe (take (bits_before subframe) block.old) }
{
    let n = equations(subframe);
    put_check(&mut block[..n]).unwrap();
    fill_parity(subframe, block).unwrap();
}
