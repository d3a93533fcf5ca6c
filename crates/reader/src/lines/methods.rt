ghost use Rattle.std.specs.Prelude.{◌≡◌, ◌+◌, length, Ok};
ghost use Rattle.std.specs.Iterator.{at_most};
ghost use Rattle.reader.specs.Lists.{lines_of, faulty, call_fault, unless};
ghost use Rattle.reader.specs.Reading.{lines_left, Steps, NextLine, PastNames, PastValues, entry_on};

use crate::lines::{Line, Lines};
use crate::list::{Entry, Fault};
use words::call::call_in;
use words::parts::cut;
use words::values::{Values, values_in};

impl<'a> Line<'a> {
    fn fault(self) -> Fault
        ensures { result ≡ faulty self.entry.number }
    {
        Fault::of_line(self.number)
    }

    // The call of the line.
    pub(crate) fn entry(self) -> Result<Entry, Fault>
        ensures { result ≡ entry_on self.entry.number self.entry.bytes.now }
    {
        let call = call_in(self.bytes).ok_or(self.fault())?;
        Ok(Entry {
            line: self.number,
            call,
        })
    }
}

// A last line without its end is the fault of that line.
impl<'a> Iterator for Lines<'a> {
    type Item = Result<Line<'a>, Fault>;

    ghost next_gives = { Steps };

    ghost remaining = { λ lines. at_most (length lines.rest.now) };

    fn next(&mut self) -> Option<Result<Line<'a>, Fault>> {
        let number = self.number;
        match cut(self.rest, b'\n') {
            Some((bytes, rest)) => {
                self.rest = rest;
                self.number += 1;
                Some(Ok(Line { number, bytes }))
            }
            None if self.rest.is_empty() => None,
            None => {
                self.rest = &[];
                Some(Err(Fault::of_line(number)))
            }
        }
    }
}

impl<'a> Lines<'a> {
    pub(crate) fn of(text: &'a [u8]) -> Lines<'a>
        ensures lines { lines_left result ≡ lines_of text.now }
        ensures number { result.number ≡ 1 }
    {
        Lines {
            rest: text,
            number: 1,
        }
    }

    // Takes a line that has to be there.
    fn line(&mut self) -> Result<Line<'a>, Fault>
        ensures { NextLine self.old result self.new }
    {
        let missing = Fault::of_line(self.number);
        self.next().unwrap_or(Err(missing))
    }

    // Takes a line that has to be these names.
    pub(crate) fn names(&mut self, names: &[u8]) -> Result<(), Fault>
        ensures { PastNames names.now self.old result self.new }
    {
        let line = self.line()?;
        if line.bytes == names {
            Ok(())
        } else {
            Err(line.fault())
        }
    }

    // Takes a line that has to be the values.
    pub(crate) fn values(&mut self) -> Result<Values, Fault>
        ensures { PastValues self.old result self.new }
    {
        let line = self.line()?;
        values_in(line.bytes).ok_or(line.fault())
    }

    // Refuses the first line that is no call.
    pub(crate) fn check_calls(self) -> Result<(), Fault>
        ensures { result ≡ unless (call_fault self.entry.number (lines_left self.entry)) (Ok tt) }
    {
        for line in self {
            line?.entry()?;
        }
        Ok(())
    }
}
