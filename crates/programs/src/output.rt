// What a program prints.
ghost use Rattle.std.specs.Prelude.{◌≡◌, ◌≤◌, ◌+◌, length, replicate};
ghost use Rattle.std.proofs.lemmas.List.Edits.{sets};
ghost use Rattle.words.specs.Bits.{IsBits};
ghost use Rattle.fields.specs.Counts.{AllInRange};
ghost use Rattle.sheets.specs.List.{sheet_fields};
ghost use Rattle.sheets.specs.Number.{decimal};
ghost use Rattle.sheets.specs.Write.{sheet_text};
ghost use Rattle.programs.specs.Output.{OUTPUT_BYTES, symbol_line, refusal_text, output_of};

use super::FRAME;
use super::symbols::set_characters;
use sheets::write::{write_decimal, write_sheet};
use words::refusal::Refusal;

// Neither program prints more: the symbols of a frame and a newline.
const OUTPUT_BYTES: usize = FRAME + 1;

// The bytes printed, with zeros behind them, and how many they are.
// Public, and fixed memory: there is no heap for a `Vec`.
#[derive(Clone, Copy)]
pub struct Output {
    pub bytes: [u8; OUTPUT_BYTES],
    pub size: usize,
}

impl Output {
    // Nothing yet.
    pub(crate) fn new() -> Output
        ensures size { result.size ≡ 0 }
        ensures bytes { result.bytes ≡ replicate OUTPUT_BYTES 0 }
    {
        Output {
            bytes: [0; OUTPUT_BYTES],
            size: 0,
        }
    }

    // Puts a text behind what is there.
    pub(crate) fn put(&mut self, text: &[u8])
        requires { self.old.size + length text.now ≤ OUTPUT_BYTES }
        ensures size { self.new.size ≡ self.old.size + length text.now }
        ensures bytes { self.new.bytes ≡ sets self.old.bytes self.old.size text.now }
    {
        let end = self.size + text.len();
        self.bytes[self.size..end].copy_from_slice(text);
        self.size = end;
    }

    // Puts the digits of a number behind it, at most 20.
    pub(crate) fn put_number(&mut self, number: u64)
        requires { self.old.size + 20 ≤ OUTPUT_BYTES }
        ensures few { self.new.size ≤ self.old.size + 20 }
        ensures size { self.new.size ≡ self.old.size + length (decimal number) }
        ensures bytes { self.new.bytes ≡ sets self.old.bytes self.old.size (decimal number) }
    {
        self.size += write_decimal(number, &mut self.bytes[self.size..]).unwrap();
    }

    // Puts symbols behind it, as characters, and a newline.
    pub(crate) fn put_line(&mut self, symbols: &[u8])
        requires bits { IsBits symbols.now }
        requires room { self.old.size + (length symbols.now + 1) ≤ OUTPUT_BYTES }
        ensures size { self.new.size ≡ self.old.size + (length symbols.now + 1) }
        ensures bytes { self.new.bytes ≡ sets self.old.bytes self.old.size (symbol_line symbols.now) }
    {
        let end = self.size + symbols.len();
        set_characters(symbols, &mut self.bytes[self.size..end]);
        self.size = end;
        self.put(b"\n");
    }

    // Puts the sheet of good numbers behind it, at most 800 bytes.
    pub(crate) fn put_sheet(&mut self, numbers: &[i64])
        requires range { AllInRange sheet_fields numbers.now }
        requires room { self.old.size + 800 ≤ OUTPUT_BYTES }
        ensures few { self.new.size ≤ self.old.size + 800 }
        ensures size { self.new.size ≡ self.old.size + length (sheet_text numbers.now) }
        ensures bytes { self.new.bytes ≡ sets self.old.bytes self.old.size (sheet_text numbers.now) }
    {
        self.size += write_sheet(numbers, &mut self.bytes[self.size..]).unwrap();
    }
}

// `refused N at P` and a newline; the digits are written as those of a sheet.
// Not by `write!`: a proof would know what it puts only by a `fmt::Write` of our own, of more lines than this.
pub(crate) fn refusal_output(refusal: Refusal) -> Output
    ensures { result ≡ output_of (refusal_text refusal.number refusal.place) }
{
    let mut output = Output::new();
    output.put(b"refused ");
    output.put_number(u64::from(refusal.number));
    output.put(b" at ");
    output.put_number(refusal.place as u64);
    output.put(b"\n");
    output
}
