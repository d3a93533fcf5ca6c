ghost use Rattle.std.specs.Prelude.{◌≡◌, length, drop, IfSome, MatchOption, nat_le, position};
ghost use Rattle.sheet.specs.Refusals.{Answers, check, passed};
ghost use Rattle.sheet.specs.declared.refusal.Refusal.TheVariants.{OutOfRange};
ghost use Rattle.front.specs.Waiting.{size_of, idle, Puts, Takes, NoneWaits, IsLowest, NoneLower};
ghost use Rattle.front.specs.Memory.{is_set, marked_bounded};
ghost use Rattle.front.specs.Fronts.{mark_waits, mark_rest, MarkStays};

use crate::mark_front::MarkFront;
use crate::{Count, Front, fitting};
use sheet::refusal::Refusal;

// The clauses `lender`, `rest` and `stays` say that a front stays in the memory that it was made over, and alters nothing
// past its size.
impl<'a> MarkFront<'a> {
    // An empty front in lent memory; of size 0 where the size or the memory is refused.
    pub fn over(size: usize, marks: &'a mut [u8]) -> MarkFront<'a>
        ensures size { result.size ≡ size_of size (length marks.old) }
        ensures waits { mark_waits result ≡ idle result.size }
        ensures tally { result.tally ≡ 0 }
        ensures lender { result.marks.ghost_name ≡ marks.entry.ghost_name }
        ensures rest { mark_rest result ≡ drop result.size marks.old }
    {
        let fit = fitting(size, marks.len());
        marks[..fit].fill(0);
        MarkFront {
            tally: 0,
            low: 0,
            size: fit,
            marks,
        }
    }

    // The lowest place that waits.
    fn lowest(&self) -> Option<usize>
        ensures { MatchOption result (NoneWaits (mark_waits self.now)) (IsLowest (mark_waits self.now)) }
    {
        let ahead = first_set(&self.marks[self.low..self.size])?;
        Some(self.low + ahead)
    }
}

// The first mark that is set.
fn first_set(marks: &[u8]) -> Option<usize>
    ensures { result ≡ position is_set marks.now }
{
    marks.iter().position(|mark| *mark != 0)
}

impl<'a> Front for MarkFront<'a> {
    ghost waits = { mark_waits };

    ghost tally = { λ f. f.tally };

    ghost bounded = { λ f. marked_bounded f.marks.now f.size f.bounded };

    fn start(&mut self)
        ensures waits { mark_waits self.new ≡ idle (length (mark_waits self.old)) }
        ensures tally { self.new.tally ≡ 0 }
        ensures stays { MarkStays self.old self.new }
    {
        self.marks[..self.size].fill(0);
        self.tally = 0;
    }

    fn put(&mut self, place: usize) -> Result<(), Refusal>
        ensures put { Answers
            (check (nat_le (length (mark_waits self.old)) place) OutOfRange passed)
            (self.new ≡ self.old)
            (λ _. Puts (mark_waits self.old) self.old.tally place (mark_waits self.new) self.new.tally)
            result }
        ensures stays { MarkStays self.old self.new }
    {
        if place >= self.size {
            return Err(Refusal::OutOfRange);
        }
        self.low = self.low.min(place);
        self.marks[place] = 1;
        Ok(())
    }

    // Hands out the lowest.
    fn take(&mut self) -> Option<usize>
        ensures taken { MatchOption result
            (NoneWaits (mark_waits self.old) × (self.new ≡ self.old))
            (λ p. Takes (mark_waits self.old) self.old.tally p (mark_waits self.new) self.new.tally) }
        ensures lowest { IfSome result (NoneLower (mark_waits self.old)) }
        ensures stays { MarkStays self.old self.new }
    {
        let place = self.lowest()?;
        self.marks[place] = 0;
        self.low = place + 1;
        self.tally = self.tally.saturating_add(1);
        Some(place)
    }

    fn count(&self) -> Count {
        Count {
            size: self.size,
            waiting: self.marks[..self.size]
                .iter()
                .filter(|mark| **mark != 0)
                .count(),
            tally: self.tally,
        }
    }
}
