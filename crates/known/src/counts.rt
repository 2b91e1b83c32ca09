// Counts of subframe 2.
use super::tally::Tally;
use super::text::{Text, answer_text, text_of};
use fields::delay::delay_of;
use fields::subframe2::{ITOW, TOE, judge_counts};

// What counts are answered that are zero but that at `k`.
fn judged_count(k: usize, count: i64) -> Text {
    let mut counts = [0i64; 33];
    if let Some(place) = counts.get_mut(k) {
        *place = count;
    }
    judged_text(&counts)
}

fn judged_text(counts: &[i64; 33]) -> Text {
    answer_text(&judge_counts(counts))
}

pub(crate) fn judged(tally: &mut Tally) {
    tally.add(b"itow 83 taken", judged_count(ITOW, 83), b"taken");
    tally.add(
        b"itow 84 refused 6 at 14",
        judged_count(ITOW, 84),
        b"refused 6 at 14",
    );
    tally.add(b"toe 2015 taken", judged_count(TOE, 2015), b"taken");
    tally.add(
        b"toe 2016 refused 6 at 39",
        judged_count(TOE, 2016),
        b"refused 6 at 39",
    );
}

fn delay_text(count: i64) -> Text {
    match delay_of(count) {
        None => text_of("not available"),
        Some(value) => text_of(value),
    }
}

pub(crate) fn delays(tally: &mut Tally) {
    tally.add(
        b"tgd -4096 not available",
        delay_text(-4096),
        b"not available",
    );
    tally.add(b"tgd -4095 a value", delay_text(-4095), b"-4095");
}
