// The 1800 symbols of a frame.
ghost use Rattle.std.specs.Prelude.{◌≡◌, length, MatchResult, Err};
ghost use Rattle.words.specs.Bits.{IsBits};
ghost use Rattle.words.specs.Refusal.{Done};
ghost use Rattle.words.specs.Time.{time_read};
ghost use Rattle.tables.specs.declared.matrix.Subframe.TheVariants.{Two, Three};
ghost use Rattle.frames.specs.Frame.{FRAME, time_in, subframe_in};
ghost use Rattle.frames.specs.Read.{frame_judged};

use parity::order::deinterleave;
use words::bits::judge_bits;
use words::refusal::{Refusal, Rule};
use words::time::{Time, read_time};

// What was lent as a frame: 1800 symbols, each a bit.
#[derive(Clone, Copy)]
pub(crate) struct Symbols<'a> {
    pub(crate) all: &'a [u8],
    ghost whole: { length all.now ≡ FRAME },
    ghost bits: { IsBits all.now },
}

impl<'a> Symbols<'a> {
    // What is lent as a frame; refused 1 at 0 for another length, 2 at the first byte that is no bit.
    pub(crate) fn of(frame: &'a [u8]) -> Result<Symbols<'a>, Refusal>
        ensures { MatchResult result (λ symbols. (frame_judged frame.now Done ≡ Done) × (symbols.all ≡ frame.entry))
            (λ refusal. frame_judged frame.now Done ≡ Err refusal) }
    {
        let unfit = frame.len() != 1800;
        if unfit {
            return Err(Rule::Length.at(0));
        }
        judge_bits(frame)?;
        Ok(Symbols { all: frame })
    }

    // The time; refused 3.
    pub(crate) fn time(self) -> Result<Time, Refusal>
        ensures { result ≡ time_read (time_in self.entry.all.now) }
    {
        read_time(&self.all[..52])
    }

    // The blocks of both subframes, into room for them.
    pub(crate) fn take_blocks(self, two: &mut [u8; 1200], three: &mut [u8; 548])
        ensures { (two.new ≡ subframe_in Two self.entry.all.now) × (three.new ≡ subframe_in Three self.entry.all.now) }
    {
        deinterleave(&self.all[52..], two, three).unwrap();
    }
}
