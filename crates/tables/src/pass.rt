// Passes over the ones of a coordinate table.
ghost use Rattle.std.specs.Prelude.{◌≡◌, ◌-◌};
ghost use Rattle.tables.specs.Coordinates.{ones, symbol_at, added_at, added, solved};

// The index of the symbol with this number, counted from 1.
fn index_of(number: u16) -> usize
    ensures { result ≡ number - 1 }
{
    usize::from(number.saturating_sub(1))
}

// The symbol with this number; past the end it is 0.
fn symbol_at(symbols: &[u8], number: u16) -> u8
    ensures { result ≡ symbol_at symbols.now number }
{
    symbols.get(index_of(number)).copied().unwrap_or(0)
}

// Adds v modulo 2 to the symbol with this number; past the end nothing changes.
fn add_at(symbols: &mut [u8], number: u16, v: u8)
    ensures { symbols.new ≡ added_at symbols.old number v }
{
    let k = index_of(number);
    if k < symbols.len() {
        symbols[k] ^= v;
    }
}

// For each one of a table, adds the symbol at its column to the sum of its row.
pub(crate) fn add_ones(table: &[(u16, u16)], symbols: &[u8], sums: &mut [u8])
    ensures { sums.new ≡ added (ones table.now) symbols.now sums.old }
{
    for &(row, column) in table {
        add_at(sums, row, symbol_at(symbols, column));
    }
}

// Forward substitution: from the sums of the rows of T, in place, to the unknowns. The unknown of a one's column, known by now, is
// added to that of its row; a one of the diagonal asks for nothing.
// A function of its own: it reads the unknowns that it changes, and `add_ones` would be lent them twice.
pub(crate) fn solve_ones(table: &[(u16, u16)], unknowns: &mut [u8])
    ensures { unknowns.new ≡ solved (ones table.now) unknowns.old }
{
    for &(row, column) in table {
        if row != column {
            add_at(unknowns, row, symbol_at(unknowns, column));
        }
    }
}
