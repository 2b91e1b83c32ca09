// Texts, as the second program writes them.
use super::bytes::copy_first;
use super::input::{digit, next_character, read_number};

// More pieces than any text has.
const MOST_PIECES: usize = 10000;

// A text that is put together in bytes that are lent, of bytes and of parts of the base text; and its length so far, none once a piece is
// none, or has no room.
#[derive(Drop)]
struct Text<'a> {
    base: &'a [u8],
    bytes: &'a mut [u8],
    length: Option<usize>,
}

impl<'a> Text<'a> {
    // The length with what begins with this character: a part of the base text, or a byte.
    fn with_piece(&mut self, character: Option<u8>) -> Option<usize> {
        if character == Some(b'@') {
            let part = read_part(self.base)?;
            self.with_bytes(part)
        } else {
            let byte = byte_of(character?)?;
            self.with_bytes(&[byte])
        }
    }

    // Puts as many bytes behind it as there is room for; none where it is not for all.
    fn with_bytes(&mut self, bytes: &[u8]) -> Option<usize> {
        let length = self.length?;
        let room = self.bytes.get_mut(length..)?;
        copy_first(bytes, room);
        if bytes.len() <= room.len() {
            Some(length + bytes.len())
        } else {
            None
        }
    }
}

// Reads a text up to the character that has to end it, and gives its length; none where it is no text, or there is no room for it.
pub(crate) fn read_text(base: &[u8], text: &mut [u8], end: u8) -> Option<usize> {
    let mut read = Text {
        base,
        bytes: text,
        length: Some(0),
    };
    let mut character = next_character();
    for _ in 0..MOST_PIECES {
        if character == Some(end) {
            break;
        }
        read.length = read.with_piece(character);
        character = next_character();
    }
    if character == Some(end) {
        read.length
    } else {
        None
    }
}

fn read_part(base: &[u8]) -> Option<&[u8]> {
    let from = read_number(4, b',');
    let count = read_number(4, b';');
    base.get(from?..)?.get(..count?)
}

fn byte_of(character: u8) -> Option<u8> {
    match character {
        b'|' => Some(b'\n'),
        b'_' => Some(b' '),
        b'\\' => escaped_byte(),
        _ => Some(character),
    }
}

fn escaped_byte() -> Option<u8> {
    let high = next_character();
    let low = next_character();
    Some(digit(high?, 16)? << 4 | digit(low?, 16)?)
}
