// Fronts: places that wait for work, with a tally of takes, in memory that the caller lends.
#![tactic(auto)]

ghost use Rattle.std.specs.Prelude.{◌≡◌, ℕ, ◌≤◌, Bool, List, length, MatchOption, nat_le};
ghost use Rattle.sheet.specs.Refusals.{Answers, check, passed};
ghost use Rattle.sheet.specs.declared.refusal.Refusal.TheVariants.{OutOfRange};
ghost use Rattle.front.specs.Waiting.{refusal_of, size_of, idle, many, Puts, Takes, NoneWaits};

use sheet::refusal::Refusal;

pub mod mark_front;
pub mod queue_front;
#[cfg(test)]
mod tests;

// The most places that a front has.
const MOST: usize = 1048576;

// How many places a front has, how many of them wait, and its tally.
#[derive(Clone, Copy, PartialEq, Eq, Debug)]
pub struct Count {
    pub size: usize,
    pub waiting: usize,
    pub tally: u64,
}

pub trait Front {
    // Which places wait: a flag for each place.
    ghost waits: { Self → List Bool };

    // How many places were handed out since the start.
    ghost tally: { Self → ℕ };

    // Whoever writes a front shows that it has at most 1,048,576 places.
    ghost bounded: { (f : Self) → length (waits f) ≤ 1048576 };

    // Empties the front and sets its tally to 0.
    fn start(&mut self)
        ensures waits { waits self.new ≡ idle (length (waits self.old)) }
        ensures tally { tally self.new ≡ 0 };

    // Adds a place; one that waits already stays once.
    fn put(&mut self, place: usize) -> Result<(), Refusal>
        ensures put { Answers
            (check (nat_le (length (waits self.old)) place) OutOfRange passed)
            (self.new ≡ self.old)
            (λ _. Puts (waits self.old) (tally self.old) place (waits self.new) (tally self.new))
            result };

    // Hands out a waiting place; nothing where none waits, and then alters nothing.
    fn take(&mut self) -> Option<usize>
        ensures taken { MatchOption result
            (NoneWaits (waits self.old) × (self.new ≡ self.old))
            (λ p. Takes (waits self.old) (tally self.old) p (waits self.new) (tally self.new)) };

    fn count(&self) -> Count
        ensures size { result.size ≡ length (waits self.now) }
        ensures waiting { result.waiting ≡ many (waits self.now) }
        ensures tally { result.tally ≡ tally self.now };
}

// Refuses a size that no front has, then a memory that is shorter.
pub fn check_front(size: usize, memory: usize) -> Result<(), Refusal>
    ensures { Answers (refusal_of size memory) (Unit {0}) (λ _. Unit {0}) result }
{
    if size == 0 || size > MOST {
        return Err(Refusal::BadSize);
    }
    if memory < size {
        return Err(Refusal::ShortMemory);
    }
    Ok(())
}

// The size of a front made from these figures: 0 where they are refused.
pub(crate) fn fitting(size: usize, memory: usize) -> usize
    ensures is { result ≡ size_of size memory }
    ensures within { result ≤ memory }
    ensures bounded { result ≤ 1048576 }
{
    check_front(size, memory).map_or(0, |()| size)
}
