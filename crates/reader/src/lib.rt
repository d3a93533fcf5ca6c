// Reads a run list, a text of calls for a sheet, without asking for memory.
#![tactic(auto)]

ghost use Rattle.std.specs.Prelude.{◌≡◌, false, IfOk};
ghost use Rattle.reader.specs.Lists.{list_of, entries_of, bad_size};
ghost use Rattle.reader.specs.Left.{left, says, said};
ghost use Rattle.reader.specs.Laws.{LinesRejoin, ListsReadTrue};

use calls::Calls;
use lines::Lines;
use list::{Fault, RunList, size_of};
use sheet::refusal::Refusal;

pub mod calls;
mod lines;
pub mod list;
#[cfg(test)]
mod tests;

// The most bytes of a run list.
const LONGEST: usize = 16384;

// The run list that a text is, once every line of it and then its size are found to be sound; else the first fault.
pub fn check(text: &[u8]) -> Result<RunList<'_>, Fault>
    ensures list { said result ≡ list_of text.now }
    ensures size { IfOk result (λ list. bad_size (says list).values ≡ false) }
    ensures calls { IfOk result (λ list. left list.calls ≡ entries_of text.now) }
{
    if text.len() > LONGEST {
        return Err(Fault {
            refusal: Refusal::LongText,
            line: 0,
        });
    }
    let mut lines = Lines::of(text);
    lines.names(b"width,height,metric")?;
    let values = lines.values()?;
    lines.names(b"call,row,column,order")?;
    lines.check_calls()?;
    Ok(RunList {
        size: size_of(values)?,
        metric: values.metric,
        calls: Calls::left_in(lines),
    })
}

// The format says what it should: the lines of a text make it up, a fault is that of the first faulty line, and a list that is
// accepted has an entry for each line from line 4 on.
pub fn format_stands()
    ensures rejoin { LinesRejoin }
    ensures lists { ListsReadTrue }
{}
