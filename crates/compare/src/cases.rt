// The cases: each reads the rest of its line, and says whether the library answers as the second program did.
use super::base::{Base, Desk};
use super::build_cases::{built_agrees, written_agrees};
use super::clock_cases::{clock_handed_agrees, clock_taken_agrees};
use super::kinds::{Kind, next_kind};
use super::page_cases::{page_put_agrees, page_taken_agrees};
use super::parity_cases::{filled_agrees, unmet_agrees};
use super::program_cases::{bench_frame_agrees, bench_refusal_agrees, readback_agrees};
use super::read_cases::read_agrees;
use super::sheet_cases::{sheet_read_agrees, sheet_written_agrees};
use super::tally::Tally;
use super::walk_cases::walk_agrees;
use tables::matrix::Subframe;
use words::refusal::Rule;

// A proved loop has to end, and nothing says that the input does. So the loop counts its turns, up to a number that no run uses up.
pub(crate) fn run_all(tally: &mut Tally) {
    let mut base = Base::zeros();
    let mut desk = Desk::zeros();
    for _ in 0..u64::MAX {
        let Some(kind) = next_kind() else {
            return;
        };
        let is_agreed = agrees(kind, &mut base, &mut desk);
        tally.add(kind, is_agreed);
    }
}

fn agrees(kind: Kind, base: &mut Base, desk: &mut Desk) -> bool {
    match kind {
        Kind::FilledTwo => filled_agrees::<1200>(Subframe::Two),
        Kind::FilledThree => filled_agrees::<548>(Subframe::Three),
        Kind::UnmetTwo => unmet_agrees::<1200>(Subframe::Two, Rule::Equation2),
        Kind::UnmetThree => unmet_agrees::<548>(Subframe::Three, Rule::Equation3),
        Kind::FrameBuilt => built_agrees(base),
        Kind::FrameNotBuilt => written_agrees(base),
        Kind::FrameRead => read_agrees(base, &mut desk.text),
        Kind::SheetWritten => sheet_written_agrees(base, &mut desk.text),
        Kind::SheetRead => sheet_read_agrees(base, &mut desk.text),
        Kind::SheetsWalked => walk_agrees(&base.text, &mut desk.text),
        Kind::PageTaken => page_taken_agrees(),
        Kind::PagePut => page_put_agrees(),
        Kind::ClockHandedOut => clock_handed_agrees(),
        Kind::ClockTakenBack => clock_taken_agrees(),
        Kind::FramePrinted => bench_frame_agrees(base, desk),
        Kind::RefusalPrinted => bench_refusal_agrees(&base.text, desk),
        Kind::FrameReadBack => readback_agrees(base, desk),
    }
}
