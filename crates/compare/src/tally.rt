// How many lines were read, and how many cases of each kind agree.
use super::kinds::{ALL, KINDS, Kind};

#[derive(Clone, Copy)]
pub(crate) struct Tally {
    lines: u64,
    agreed: [u64; KINDS],
}

impl Tally {
    pub(crate) fn new() -> Tally {
        Tally {
            lines: 0,
            agreed: [0; KINDS],
        }
    }

    // Counts a case: its line, and its kind where it agrees. One that does not is told of.
    pub(crate) fn add(&mut self, kind: Kind, is_agreed: bool) {
        self.lines = self.lines.wrapping_add(1);
        if is_agreed {
            self.add_agreed(kind);
        } else {
            print_line(self.lines);
        }
    }

    fn add_agreed(&mut self, kind: Kind) {
        let k = kind as usize;
        self.agreed[k] = self.agreed[k].wrapping_add(1);
    }

    pub(crate) fn print(&self) {
        io::write_all(
            1,
            b"cases in which the library answers as the second program does\n",
        );
        for (kind, agreed) in ALL.iter().zip(self.agreed.iter()) {
            print_row(kind.row(), *agreed);
        }
        print_row(b"lines read                ", self.lines);
    }
}

fn print_line(line: u64) {
    io::write_all(1, b"line ");
    io::print_decimal(1, line);
    io::write_all(1, b": the library answers otherwise\n");
}

fn print_row(row: &[u8], count: u64) {
    io::write_all(1, row);
    io::print_decimal(1, count);
    io::write_all(1, b"\n");
}
