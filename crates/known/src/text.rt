// What came out, as a text of at most 64 bytes.
use arrayvec::ArrayString;
use std::fmt::{Display, Write};
use words::refusal::Refusal;

pub(crate) type Text = ArrayString<64>;

// What is displayed, as far as there is room for it. `Drop` says that what is given can be let go.
pub(crate) fn text_of(shown: impl Display + Drop) -> Text {
    let mut text = Text::new();
    let _ = write!(text, "{shown}");
    text
}

// Puts bytes behind the text, each as a character, as far as there is room for them.
pub(crate) fn push_bytes(text: &mut Text, bytes: &[u8]) {
    for byte in bytes {
        let _ = text.try_push(char::from(*byte));
    }
}

// That something is taken, whatever it gives, or its refusal.
pub(crate) fn answer_text<T>(answer: &Result<T, Refusal>) -> Text {
    match answer {
        Ok(_) => text_of("taken"),
        Err(refusal) => text_of(*refusal),
    }
}
