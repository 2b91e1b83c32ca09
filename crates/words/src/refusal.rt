// What a refusal is: its number, by the table "Numbers given on refusal", and its place.
ghost use Rattle.std.specs.Prelude.{◌≡◌, Some};
ghost use Rattle.words.specs.Refusal.{number, refusal_at, refusal_text, refused_at};

use std::fmt;

// The rows of the table, in its order. What each is given for stands beside its number, in specs/Refusal.antt.
#[derive(Clone, Copy, PartialEq, Eq)]
pub enum Rule {
    Length = 1,
    NotABit,
    Time,
    Equation2,
    Check2,
    Field2,
    Equation3,
    Check3,
    Field3,
    Trailer,
    Line,
    Name,
    NameAgain,
    Number,
    NameMissing,
    Room,
}

impl Rule {
    // The table's number.
    pub fn number(self) -> u8
        ensures { result ≡ number self }
    {
        self as u8
    }

    // The refusal by this rule, at this place.
    pub fn at(self, place: usize) -> Refusal
        ensures { result ≡ refusal_at (number self) place }
    {
        Refusal {
            number: self.number(),
            place,
        }
    }
}

// A refusal: the number, of a row of the table where the library refuses, and any byte by `refuse`, and the place.
#[derive(Clone, Copy, PartialEq, Eq)]
pub struct Refusal {
    pub number: u8,
    pub place: usize,
}

impl fmt::Display for Refusal {
    ghost output = { λ refusal. Some (refusal_text refusal.number refusal.place) };

    fn fmt<W: fmt::Write>(&self, f: &mut fmt::Formatter<W>) -> fmt::Result {
        write!(f, "refused {} at {}", self.number, self.place)
    }
}

// Refuses with this number, which may be one that no rule has, at this place, where a value would be given. The library's own refusals are
// made by `Rule::at`.
pub fn refuse<T>(number: u8, place: usize) -> Result<T, Refusal>
    ensures { result ≡ refused_at number place }
{
    Err(Refusal { number, place })
}
