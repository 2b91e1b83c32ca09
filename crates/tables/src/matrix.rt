// The parity-check matrix of each subframe, by the ones of its six submatrices (3.2.3.4).
ghost use Rattle.std.specs.Prelude.{◌≡◌};
ghost use Rattle.tables.specs.Coordinates.{ones, added, solved};
ghost use Rattle.tables.specs.Matrix.{matrix_of, submatrix_of};

use super::a2::A2;
use super::a3::A3;
use super::bcde2::{B2, C2, D2, E2};
use super::bcde3::{B3, C3, D3, E3};
use super::pass::{add_ones, solve_ones};
use super::t2::T2;
use super::t3::T3;

// The subframes that have parity.
#[derive(Clone, Copy)]
pub enum Subframe {
    Two,
    Three,
}

// The submatrices of A B T over C D E.
#[derive(Clone, Copy)]
pub enum Submatrix {
    A,
    B,
    T,
    C,
    D,
    E,
}

// How many equations a subframe has; its data symbols are as many.
// A match of two arms: a table or a closure is no plainer.
pub fn equations(subframe: Subframe) -> usize
    ensures { result ≡ (matrix_of subframe).equations }
{
    match subframe {
        Subframe::Two => 600,
        Subframe::Three => 274,
    }
}

// The ones of a submatrix, each by its row and its column. That they are the printed ones is proved by computing both lists.
#[tactic(auto, unfolding(crate::specs::Coordinates::ones, crate::specs::Coordinates::coordinates))]
fn ones_of(subframe: Subframe, submatrix: Submatrix) -> &'static [(u16, u16)]
    ensures { ones result.now ≡ submatrix_of (matrix_of subframe) submatrix }
{
    match (subframe, submatrix) {
        (Subframe::Two, Submatrix::A) => &A2,
        (Subframe::Two, Submatrix::B) => &B2,
        (Subframe::Two, Submatrix::T) => &T2,
        (Subframe::Two, Submatrix::C) => &C2,
        (Subframe::Two, Submatrix::D) => &D2,
        (Subframe::Two, Submatrix::E) => &E2,
        (Subframe::Three, Submatrix::A) => &A3,
        (Subframe::Three, Submatrix::B) => &B3,
        (Subframe::Three, Submatrix::T) => &T3,
        (Subframe::Three, Submatrix::C) => &C3,
        (Subframe::Three, Submatrix::D) => &D3,
        (Subframe::Three, Submatrix::E) => &E3,
    }
}

// For each one of a submatrix, adds the symbol at its column modulo 2 to the sum of its row, both counted from 1. A symbol past the
// end counts as 0, and a sum past the end is not kept.
// This and `solve` are public, one line each over `ones_of`.
pub fn add(subframe: Subframe, submatrix: Submatrix, symbols: &[u8], sums: &mut [u8])
    ensures { sums.new ≡ added (submatrix_of (matrix_of subframe) submatrix) symbols.now sums.old }
{
    add_ones(ones_of(subframe, submatrix), symbols, sums);
}

// T⁻¹ times what is lent, in place, by forward substitution.
pub fn solve(subframe: Subframe, unknowns: &mut [u8])
    ensures { unknowns.new ≡ solved (matrix_of subframe).t unknowns.old }
{
    solve_ones(ones_of(subframe, Submatrix::T), unknowns);
}
