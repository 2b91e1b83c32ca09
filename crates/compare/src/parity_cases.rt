// The cases of blocks of data and parity.
ghost use Rattle.std.specs.Prelude.{◌≤◌};

use super::bytes::{copy_first, read_bits};
use super::input::read_number;
use super::told::{DONE, Told};
use parity::equations::first_unmet;
use parity::fill::fill_parity;
use tables::matrix::Subframe;
use words::refusal::Rule;

// The first half of a block is its data. It is lent with ones in the other, so its parity is wrong until the library fills it.
// Asked for, here and below: that `N` is small. An array of any `N` may be larger than there is memory, and no type says how large.
pub(crate) fn filled_agrees<const N: usize>(subframe: Subframe) -> bool
    requires { N ≤ 1200 }
{
    let mut expected = [0u8; N];
    let mut block = [1u8; N];
    let is_read = read_bits(&mut expected, 2, b'\n');
    copy_first(&expected[..N / 2], &mut block);
    let answer = fill_parity(subframe, &mut block);
    is_read && answer.is_ok() && block == expected
}

pub(crate) fn unmet_agrees<const N: usize>(subframe: Subframe, rule: Rule) -> bool
    requires { N ≤ 1200 }
{
    let mut block = [0u8; N];
    let place = read_number(4, b' ');
    let is_read = read_bits(&mut block, 2, b'\n');
    let answer = first_unmet(subframe, &block);
    is_read && unmet(rule, place) == Some(answer)
}

// Place 0 stands for no refusal, and every other for one by that rule.
fn unmet(rule: Rule, place: Option<usize>) -> Told {
    match place? {
        0 => DONE,
        place => Some(Err(rule.at(place))),
    }
}
