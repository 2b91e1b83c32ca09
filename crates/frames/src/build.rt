// Building frames.
ghost use Rattle.std.specs.Prelude.{◌≡◌, ◌&&◌, ◌++◌, ◌≤◌, eqb, length, take};
ghost use Rattle.words.specs.Bits.{IsBits};
ghost use Rattle.words.specs.Refusal.{in_turn, left_by};
ghost use Rattle.words.specs.Time.{LAST_TOI, time_word};
ghost use Rattle.tables.specs.declared.matrix.Subframe.TheVariants.{Three};
ghost use Rattle.parity.specs.Order.{interleaved};
ghost use Rattle.fields.specs.Subframe2.{COUNTS_2, BITS_2, counts_answer, bits2};
ghost use Rattle.fields.specs.Pages.{PAGE_BITS, range_answer};
ghost use Rattle.frames.specs.Frame.{FRAME, subframe_of};
ghost use Rattle.frames.specs.Build.{contents_of, build_answer, build_bytes};
ghost use Rattle.frames.specs.Laws.Steps.{symbols_from};

use super::block::complete;
use fields::pages::judge_page;
use fields::subframe2::write_fields;
use parity::order::interleave;
use tables::matrix::Subframe;
use words::bits::judge_bits;
use words::refusal::{Refusal, Rule};
use words::time::{LAST_TOI, write_time};

// The counts, the page and the frame are as many as they must be.
// The lengths are those of this call: a function for all calls would take each as a parameter.
fn has_sizes(counts: usize, page: usize, frame: usize) -> bool
    ensures { result ≡ (eqb counts COUNTS_2 && (eqb page PAGE_BITS && eqb frame FRAME)) }
{
    counts == 33 && page == 250 && frame == 1800
}

// The contents that are lent, judged but for the ranges of their fields.
#[derive(Clone, Copy)]
struct Contents<'a> {
    toi: u16,
    counts: &'a [i64],
    page: &'a [u8],
    ghost time: { toi ≤ LAST_TOI },
    ghost count: { length counts.now ≡ COUNTS_2 },
    ghost whole: { length page.now ≡ PAGE_BITS },
    ghost bits: { IsBits page.now },
}

impl<'a> Contents<'a> {
    // The block of subframe 3 with the page, its check bits and its parity.
    fn write_page_block(self, three: &mut [u8; 548])
        ensures { three.new ≡ subframe_of Three self.entry.page.now }
    {
        three[..250].copy_from_slice(self.page);
        complete(Subframe::Three, three);
    }

    // The symbols of the time and of both blocks, in order.
    // Asked for: blocks of bits, as `complete` leaves them, and the room that `build` has judged; a type of either would be made for this call.
    fn write_symbols(self, two: &[u8; 1200], three: &[u8; 548], frame: &mut [u8])
        requires { IsBits two.now × IsBits three.now × (length frame.old ≡ FRAME) }
        ensures { frame.new ≡ time_word self.entry.toi ++ interleaved (two.now ++ three.now) }
    {
        write_time(&mut frame[..52], self.toi).unwrap();
        interleave(two, three, &mut frame[52..]).unwrap();
    }

    // The frame of the time, of the bits of subframe 2, which stand in front of its block, and of the page.
    // The room is what `build` has judged.
    fn write_frame(self, two: &mut [u8; 1200], frame: &mut [u8])
        requires { IsBits (take BITS_2 two.old) × (length frame.old ≡ FRAME) }
        ensures { frame.new ≡ symbols_from self.entry.toi (take BITS_2 two.old) self.entry.page.now }
    {
        let mut three = [0u8; 548];
        complete(Subframe::Two, two);
        self.write_page_block(&mut three);
        self.write_symbols(two, &three, frame);
    }

    // Judges the counts and the page, and where nothing is refused writes the frame; `two` is room for the block of subframe 2.
    // The room is what `build` has judged.
    fn build_in(self, two: &mut [u8; 1200], frame: &mut [u8]) -> Result<(), Refusal>
        requires { length frame.old ≡ FRAME }
        ensures { (result ≡ in_turn (counts_answer self.entry.counts.now) (range_answer self.entry.page.now))
            × (frame.new ≡ left_by (in_turn (counts_answer self.entry.counts.now) (range_answer self.entry.page.now))
            (symbols_from self.entry.toi (bits2 self.entry.counts.now) self.entry.page.now) frame.old) }
    {
        write_fields(self.counts, &mut two[..576])?;
        judge_page(self.page)?;
        self.write_frame(two, frame);
        Ok(())
    }
}

// The frame of a time, 33 counts and 250 page bits, into 1800 bytes. Refused 1 at 0 for other lengths, 2 at the first page byte that is
// no bit, 3 at 0 for a time over 399, 6 at the first bit of the first count out of range, 9 at that of the first field of page 1 out of range.
pub fn build(toi: u16, counts: &[i64], page: &[u8], frame: &mut [u8]) -> Result<(), Refusal>
    ensures { (result ≡ build_answer (contents_of toi counts.now page.now) frame.old)
        × (frame.new ≡ build_bytes (contents_of toi counts.now page.now) frame.old) }
{
    if !has_sizes(counts.len(), page.len(), frame.len()) {
        return Err(Rule::Length.at(0));
    }
    judge_bits(page)?;
    if LAST_TOI < toi {
        return Err(Rule::Time.at(0));
    }
    let mut two = [0u8; 1200];
    let contents = Contents { toi, counts, page };
    contents.build_in(&mut two, frame)
}
