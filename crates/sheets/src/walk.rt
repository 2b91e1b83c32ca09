// The walk over the sheets of a file, from the last to the first.
ghost use Rattle.std.specs.Prelude.{◌≡◌, length};
ghost use Rattle.sheets.specs.Walk.{step_at, place_after};

use super::sheet::{Sheet, read_sheet};
use words::refusal::{Refusal, Rule};

// The lent bytes, and a place in them.
#[derive(Clone, Copy)]
pub struct Walk<'a> {
    pub bytes: &'a [u8],
    pub place: usize,
}

// A step from a place of the bytes: none at place 0, where the walk is finished; else what is read of the sheet that ends there, toi's
// number first, or its refusal; a place past the end is refused 1 at 0.
#[tactic(auto, unfolding(crate::specs::Walk::step_at))]
pub(crate) fn step_at(bytes: &[u8], place: usize) -> Option<Result<Sheet, Refusal>>
    ensures { result ≡ step_at bytes.now place }
{
    if bytes.len() < place {
        return Some(Err(Rule::Length.at(0)));
    }
    let finished = place == 0;
    if finished {
        return None;
    }
    Some(read_sheet(&bytes[..place]))
}

impl<'a> Walk<'a> {
    // A walk that starts at the end of the bytes.
    pub fn from_end(bytes: &'a [u8]) -> Walk<'a>
        ensures { (result.bytes ≡ bytes.entry) × (result.place ≡ length bytes.now) }
    {
        Walk {
            bytes,
            place: bytes.len(),
        }
    }

    // The step from the walk's place.
    pub fn look(self) -> Option<Result<Sheet, Refusal>>
        ensures { result ≡ step_at self.entry.bytes.now self.entry.place }
    {
        step_at(self.bytes, self.place)
    }

    // The same, and the walk goes on: to the sheet's first byte; finished or on a refusal, its place stays.
    pub fn next<'s>(&'s mut self) -> Option<Result<Sheet, Refusal>>
        ensures { (result ≡ step_at self.old.bytes.now self.old.place)
            × (self.new.bytes ≡ self.old.bytes)
            × (self.new.place ≡ place_after (step_at self.old.bytes.now self.old.place) self.old.place) }
    {
        let step = step_at(self.bytes, self.place);
        if let Some(Ok(sheet)) = step {
            self.place = sheet.before;
        }
        step
    }
}

// The step of a walk from a place of the bytes, for callers that hold the two apart.
pub fn walk_back(bytes: &[u8], place: usize) -> Option<Result<Sheet, Refusal>>
    ensures { result ≡ step_at bytes.now place }
{
    let walk = Walk { bytes, place };
    walk.look()
}
