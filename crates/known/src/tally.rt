// The lines that are printed, and how many known results came out as expected.
use super::text::Text;

#[derive(Clone, Copy, Default)]
pub(crate) struct Tally {
    all: u64,
    right: u64,
}

impl Tally {
    // Prints the line of a known result, and counts it.
    pub(crate) fn add(&mut self, words: &[u8], found: Text, expected: &[u8]) {
        print_part(words);
        print_part(found.as_bytes());
        print_part(expected);
        self.all = self.all.saturating_add(1);
        if found.as_bytes() == expected {
            io::write_all(1, b"ok\n");
            self.right = self.right.saturating_add(1);
        } else {
            io::write_all(1, b"WRONG\n");
        }
    }

    pub(crate) fn print(&self) {
        io::print_decimal(1, self.right);
        io::write_all(1, b" of ");
        io::print_decimal(1, self.all);
        io::write_all(1, b" known results\n");
    }
}

fn print_part(part: &[u8]) {
    print_seen(part);
    io::write_all(1, b" | ");
}

// Prints bytes so that each can be seen: a symbol is its digit, and a newline `\n`.
fn print_seen(bytes: &[u8]) {
    for byte in bytes {
        match *byte {
            0 => io::write_all(1, b"0"),
            1 => io::write_all(1, b"1"),
            b'\n' => io::write_all(1, b"\\n"),
            itself => io::write_all(1, &[itself]),
        };
    }
}
