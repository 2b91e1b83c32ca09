// Symbols as characters: `0` and `1`.
ghost use Rattle.std.specs.Prelude.{◌≡◌, ◌<◌, length, MatchOption};
ghost use Rattle.words.specs.Bits.{IsBits};
ghost use Rattle.words.specs.Refusal.{given_by};
ghost use Rattle.programs.specs.Symbols.{is_symbol, first_other, symbols_in, characters_of, symbols_answer};

use words::refusal::{Refusal, Rule};

// The character is `0` or `1`.
fn is_symbol(character: u8) -> bool
    ensures { result ≡ is_symbol character }
{
    (b'0'..=b'1').contains(&character)
}

// The index of the first character that is neither `0` nor `1`.
fn first_other(characters: &[u8]) -> Option<usize>
    ensures { MatchOption result (first_other characters.now ≡ length characters.now)
        (λ other. (first_other characters.now ≡ other) × (other < length characters.now)) }
{
    characters
        .iter()
        .position(|character| !is_symbol(*character))
}

// Writes the symbols that characters `0` and `1` stand for.
fn set_symbols(characters: &[u8], symbols: &mut [u8])
    requires { (length characters.now ≡ length symbols.old) × (first_other characters.now ≡ length characters.now) }
    ensures { symbols.new ≡ symbols_in characters.now }
{
    // by place and not by `zip`: of a slice that is written so a proof knows no element.
    for (i, character) in characters.iter().enumerate() {
        symbols[i] = *character - b'0';
    }
}

// The N symbols that characters stand for. Refused 1 at 0 for another length, 2 at the first character that is neither `0` nor `1`.
pub(crate) fn take_symbols<const N: usize>(characters: &[u8]) -> Result<[u8; N], Refusal>
    ensures { result ≡ given_by (symbols_answer N characters.now) (symbols_in characters.now) }
{
    if characters.len() != N {
        return Err(Rule::Length.at(0));
    }
    if let Some(other) = first_other(characters) {
        return Err(Rule::NotABit.at(other));
    }
    let mut symbols = [0u8; N];
    set_symbols(characters, &mut symbols);
    Ok(symbols)
}

// Writes symbols as characters over as many bytes.
// Asked for: bits. Who lends them has judged them, and a type would be made for this one call.
pub(crate) fn set_characters(symbols: &[u8], characters: &mut [u8])
    requires { IsBits symbols.now × (length symbols.now ≡ length characters.old) }
    ensures { characters.new ≡ characters_of symbols.now }
{
    // by place and not by `zip`: of a slice that is written so a proof knows no element.
    for (i, symbol) in symbols.iter().enumerate() {
        characters[i] = b'0' + *symbol;
    }
}
