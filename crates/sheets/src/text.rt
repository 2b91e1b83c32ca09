// Texts: where a byte stands, and a text that is written piece by piece.
ghost use Rattle.std.specs.Prelude.{◌≡◌, ◌≤◌, ◌<◌, ◌+◌, List, [], ◌∷◌, ◌++◌, ℕ, length, take};
ghost use Rattle.sheets.specs.Text.{index_of};
ghost use Rattle.sheets.specs.Number.{decimal, numeral};
ghost use Rattle.sheets.specs.Laws.Steps.{first_at};
ghost use Rattle.sheets.specs.declared.text.TheConstants.{SHEET_BYTES};

use super::number::Digits;
use std::marker::Model;

// Where the first byte `b` stands, if there is one.
pub(crate) fn first(bytes: &[u8], b: u8) -> Option<usize>
    ensures { result ≡ first_at b bytes.now }
{
    bytes.iter().position(|x| *x == b)
}

// How many bytes stand before the first byte `b`: all, where there is none.
// Not an Option: its clause, by `index_of`, promises the number of bytes.
#[tactic(auto, using(crate::specs::Laws::Text::index_le))]
pub fn find(bytes: &[u8], b: u8) -> usize
    ensures { result ≡ index_of b bytes.now }
{
    first(bytes, b).unwrap_or(bytes.len())
}

// The most bytes that the sheet of good numbers has.
pub(crate) const SHEET_BYTES: usize = 800;

// A text that is written piece by piece, with room for such a sheet.
// Fixed memory: there is no heap for a `Vec`, and the library stands on std alone. `Output` of programs is the like of it, and public: an
// invariant would ask something of whoever makes one.
#[derive(Drop)]
pub(crate) struct Text {
    bytes: [u8; SHEET_BYTES],
    size: usize,
}

// Clauses see what is written so far.
impl Model for Text {
    ghost Value = { List ℕ };

    ghost view = { λ text. take text.size text.bytes };

    ghost invariant = { λ text. text.size ≤ SHEET_BYTES };
}

impl Text {
    pub(crate) fn new() -> Text
        ensures { result ≡ [] }
    {
        Text {
            bytes: [0; SHEET_BYTES],
            size: 0,
        }
    }

    pub(crate) fn len(&self) -> usize
        ensures { result ≡ length self.now }
    {
        self.size
    }

    pub(crate) fn as_slice(&self) -> &[u8]
        ensures { result.now ≡ self.now }
    {
        &self.bytes[..self.size]
    }

    pub(crate) fn push(&mut self, byte: u8)
        requires { length self.old < SHEET_BYTES }
        ensures { self.new ≡ self.old ++ byte ∷ [] }
    {
        self.bytes[self.size] = byte;
        self.size += 1;
    }

    pub(crate) fn put(&mut self, bytes: &[u8])
        requires { length self.old + length bytes.now ≤ SHEET_BYTES }
        ensures { self.new ≡ self.old ++ bytes.now }
    {
        let end = self.size + bytes.len();
        self.bytes[self.size..end].copy_from_slice(bytes);
        self.size = end;
    }

    // The digits of a number; a single one is put as it is.
    #[tactic(auto, using(crate::specs::Laws::Numerals::decimal_small))]
    fn put_decimal(&mut self, number: u64)
        requires { length self.old + length (decimal number) ≤ SHEET_BYTES }
        ensures { self.new ≡ self.old ++ decimal number }
    {
        if number < 10 {
            self.push(b'0' + number as u8);
        } else {
            self.put(Digits::of(number).as_slice());
        }
    }

    // A number, with its sign where it is below zero.
    pub(crate) fn put_number(&mut self, number: i64)
        requires { length self.old + length (numeral number) ≤ SHEET_BYTES }
        ensures { self.new ≡ self.old ++ numeral number }
    {
        if number < 0 {
            self.push(b'-');
        }
        self.put_decimal(number.unsigned_abs());
    }
}
