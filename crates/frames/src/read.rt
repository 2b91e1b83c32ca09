// Reading frames: the whole, or the time or one subframe alone.
ghost use Rattle.std.specs.Prelude.{◌≡◌, length};
ghost use Rattle.words.specs.Bits.{IsBits};
ghost use Rattle.words.specs.Refusal.{given_by};
ghost use Rattle.fields.specs.Pages.{PAGE_BITS, range_answer};
ghost use Rattle.frames.specs.Read.{frame_read, time_alone, subframe2_alone, subframe3_alone};
ghost use Rattle.frames.specs.Laws.Steps.{counts_from, page_from};

use super::block::judge_block;
use super::symbols::Symbols;
use fields::pages::judge_page;
use fields::subframe2::read_fields;
use tables::matrix::Subframe;
use words::refusal::Refusal;
use words::time::Time;

// What reading a frame gives: its contents, and how many time symbols were corrected.
#[derive(Clone, Copy, PartialEq, Eq)]
pub struct Frame {
    pub toi: u16,
    pub corrected: u32,
    pub counts: [i64; 33],
    pub page: [u8; 250],
}

// ---- the blocks of both subframes

// The counts of the block of subframe 2; refused 4, 5, then 6.
fn counts_of(two: &[u8]) -> Result<[i64; 33], Refusal>
    ensures { result ≡ counts_from two.now }
{
    judge_block(Subframe::Two, two)?;
    read_fields(&two[..576])
}

// The page bits that are lent, 250 of them; refused 9.
// Asked for: 250 bits. They are a part of a block, judged there, and a type would be made for this one call.
fn page_bits(bits: &[u8]) -> Result<[u8; 250], Refusal>
    requires { (length bits.now ≡ PAGE_BITS) × IsBits bits.now }
    ensures { result ≡ given_by (range_answer bits.now) bits.now }
{
    judge_page(bits)?;
    let mut page = [0u8; 250];
    page.copy_from_slice(bits);
    Ok(page)
}

// The page bits of the block of subframe 3; refused 7, 8, then 9.
fn page_of(three: &[u8]) -> Result<[u8; 250], Refusal>
    ensures { result ≡ page_from three.now }
{
    judge_block(Subframe::Three, three)?;
    page_bits(&three[..250])
}

// ---- any bytes

// The time of a frame; refused 1, 2, then 3.
pub fn read_time(frame: &[u8]) -> Result<Time, Refusal>
    ensures { result ≡ time_alone frame.now }
{
    Symbols::of(frame)?.time()
}

// The counts of subframe 2; refused 1, 2, then 4 5 6.
// This and `read_subframe3` have room for both blocks each, lent and not handed back, so that a block lies once on the stack.
pub fn read_subframe2(frame: &[u8]) -> Result<[i64; 33], Refusal>
    ensures { result ≡ subframe2_alone frame.now }
{
    let symbols = Symbols::of(frame)?;
    let mut two = [0u8; 1200];
    let mut three = [0u8; 548];
    symbols.take_blocks(&mut two, &mut three);
    counts_of(&two)
}

// The page bits of subframe 3; refused 1, 2, then 7 8 9.
pub fn read_subframe3(frame: &[u8]) -> Result<[u8; 250], Refusal>
    ensures { result ≡ subframe3_alone frame.now }
{
    let symbols = Symbols::of(frame)?;
    let mut two = [0u8; 1200];
    let mut three = [0u8; 548];
    symbols.take_blocks(&mut two, &mut three);
    page_of(&three)
}

// The contents of a frame; refused 1, 2, then 3, then 4 5 6, then 7 8 9.
pub fn read(frame: &[u8]) -> Result<Frame, Refusal>
    ensures { result ≡ frame_read frame.now }
{
    let symbols = Symbols::of(frame)?;
    let time = symbols.time()?;
    let mut two = [0u8; 1200];
    let mut three = [0u8; 548];
    symbols.take_blocks(&mut two, &mut three);
    let counts = counts_of(&two)?;
    let page = page_of(&three)?;
    Ok(Frame {
        toi: time.toi,
        corrected: time.corrected,
        counts,
        page,
    })
}
