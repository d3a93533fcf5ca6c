ghost use Rattle.std.specs.Prelude.{◌≡◌};
ghost use Rattle.std.specs.Iterator.{item_count};
ghost use Rattle.reader.specs.Lists.{entries_from, entries_of};
ghost use Rattle.reader.specs.Reading.{lines_left};
ghost use Rattle.reader.specs.Left.{left, Takes};

use crate::lines::Lines;
use crate::list::Entry;

// The lines before the first call.
const HEAD: usize = 3;

// The calls of a text, read one by one.
#[derive(Clone, Copy)]
pub struct Calls<'a> {
    rest: Lines<'a>,
}

impl<'a> Calls<'a> {
    // The calls from line 4 on, whatever stands before.
    pub fn of(text: &'a [u8]) -> Calls<'a>
        ensures { left result ≡ entries_of text.now }
    {
        let mut rest = Lines::of(text);
        // a loop: `nth` would read the last of them for a value that nobody asks for
        for _line in 0..HEAD {
            let _ = rest.next();
        }
        Calls { rest }
    }

    // The calls on the lines that are left.
    pub(crate) fn left_in(rest: Lines<'a>) -> Calls<'a>
        ensures { left result ≡ entries_from rest.entry.number (lines_left rest.entry) }
    {
        Calls { rest }
    }
}

impl<'a> Iterator for Calls<'a> {
    type Item = Entry;

    ghost next_gives = { Takes };

    ghost remaining = { item_count left };

    // The next call with the number of its line; nothing at the end and at a line that is no call, and so from then on.
    fn next(&mut self) -> Option<Entry> {
        let mut rest = self.rest;
        let line = rest.next()?.ok()?;
        let entry = line.entry().ok()?;
        self.rest = rest;
        Some(entry)
    }
}
