// What cases hand on to the cases behind them.
use super::contents::Contents;

// The base: a frame and its contents, and a text and its numbers. All are zeros until a case sets them.
#[derive(Clone, Copy)]
pub(crate) struct Base {
    pub(crate) contents: Contents,
    pub(crate) frame: [u8; 1800],
    pub(crate) numbers: [i64; 34],
    pub(crate) text: [u8; 5000],
}

impl Base {
    pub(crate) fn zeros() -> Base {
        Base {
            contents: Contents::zeros(),
            frame: [0; 1800],
            numbers: [0; 34],
            text: [0; 5000],
        }
    }
}

// Where cases put bytes together: a text, and what is printed.
#[derive(Clone, Copy)]
pub(crate) struct Desk {
    pub(crate) text: [u8; 8200],
    pub(crate) printed: [u8; 1802],
}

impl Desk {
    pub(crate) fn zeros() -> Desk {
        Desk {
            text: [0; 8200],
            printed: [0; 1802],
        }
    }
}
