// A line of a sheet.
ghost use Rattle.std.specs.Prelude.{◌≡◌, ◌<◌};
ghost use Rattle.sheets.specs.Laws.Steps.{named_line, line_read};

use super::list::{LISTED, listed_field, name_position};
use super::number::read_number;
use super::text::first;
use words::refusal::Rule;

// For each name of the list the number of its line, where there was one.
pub(crate) type Found = [Option<i64>; LISTED];

// What the line of the name at a position of the list says: the position and the number, or the rule by which it is refused; `found` are the
// numbers of the lines before it.
fn judge_named(k: usize, text: &[u8], found: &Found) -> Result<(usize, i64), Rule>
    requires { k < LISTED }
    ensures { result ≡ named_line k text.now found.now }
{
    let again = found[k].is_some();
    if again {
        return Err(Rule::NameAgain);
    }
    let number = read_number(listed_field(k), text).ok_or(Rule::Number)?;
    Ok((k, number))
}

// The same of a line without its end.
#[tactic(auto, using(crate::specs::Laws::List::listed_many), unfolding(crate::specs::Laws::Steps::line_read, crate::specs::Laws::Steps::named_line))]
pub(crate) fn judge_line(line: &[u8], found: &Found) -> Result<(usize, i64), Rule>
    ensures { result ≡ line_read line.now found.now }
{
    let equals = first(line, b'=').ok_or(Rule::Line)?;
    let k = name_position(&line[..equals]).ok_or(Rule::Name)?;
    judge_named(k, &line[equals + 1..], found)
}
