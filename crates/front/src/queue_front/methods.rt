ghost use Rattle.std.specs.Prelude.{◌≡◌, ◌*◌, ◌<◌, min, [], ◌∷◌, length, drop, MatchOption, nat_le};
ghost use Rattle.sheet.specs.Refusals.{Answers, check, passed};
ghost use Rattle.sheet.specs.declared.refusal.Refusal.TheVariants.{OutOfRange};
ghost use Rattle.front.specs.Waiting.{size_of, idle, Puts, Takes, NoneWaits};
ghost use Rattle.front.specs.Memory.{turn, marked_bounded};
ghost use Rattle.front.specs.Fronts.{queue_waits, queued, enqueued, flags_rest, QueueStays};

use crate::queue_front::QueueFront;
use crate::{Count, Front, fitting};
use sheet::refusal::Refusal;

// The clauses on lenders and rests, and `stays`, say that a queue stays in the memory that it was made over, and alters
// nothing past its size.
impl<'a> QueueFront<'a> {
    // An empty front in lent memory, of which the shorter counts; of size 0 where the size or the memory is refused.
    pub fn over(size: usize, ring: &'a mut [u32], flags: &'a mut [u8]) -> QueueFront<'a>
        ensures size { result.size ≡ size_of size (min (length ring.old) (length flags.old)) }
        ensures waits { queue_waits result ≡ idle result.size }
        ensures order { queued result ≡ [] }
        ensures tally { result.tally ≡ 0 }
        ensures ring_lender { result.ring.ghost_name ≡ ring.entry.ghost_name }
        ensures ring_same { result.ring.now ≡ ring.old }
        ensures flags_lender { result.flags.ghost_name ≡ flags.entry.ghost_name }
        ensures flags_rest { flags_rest result ≡ drop result.size flags.old }
    {
        let fit = fitting(size, ring.len().min(flags.len()));
        flags[..fit].fill(0);
        QueueFront {
            tally: 0,
            head: 0,
            waiting: 0,
            size: fit,
            ring,
            flags,
        }
    }
}

// An index of the ring, counted past its end.
fn turned(size: usize, at: usize) -> usize
    requires { at < 2 * size }
    ensures value { result ≡ turn size at }
    ensures below { result < size }
{
    if at < size { at } else { at - size }
}

impl<'a> Front for QueueFront<'a> {
    ghost waits = { queue_waits };

    ghost tally = { λ f. f.tally };

    ghost bounded = { λ f. marked_bounded f.flags.now f.size f.bounded };

    fn start(&mut self)
        ensures waits { queue_waits self.new ≡ idle (length (queue_waits self.old)) }
        ensures tally { self.new.tally ≡ 0 }
        ensures order { queued self.new ≡ [] }
        ensures stays { QueueStays self.old self.new }
    {
        while self.take().is_some() {}
        self.tally = 0;
    }

    // Adds a place at the end.
    fn put(&mut self, place: usize) -> Result<(), Refusal>
        ensures put { Answers
            (check (nat_le (length (queue_waits self.old)) place) OutOfRange passed)
            (self.new ≡ self.old)
            (λ _. Puts (queue_waits self.old) self.old.tally place (queue_waits self.new) self.new.tally)
            result }
        ensures order { queued self.new ≡ enqueued (queue_waits self.old) place (queued self.old) }
        ensures stays { QueueStays self.old self.new }
    {
        if place >= self.size {
            return Err(Refusal::OutOfRange);
        }
        if self.flags[place] != 0 {
            return Ok(());
        }
        let at = turned(self.size, self.head + self.waiting);
        self.ring[at] = place as u32;
        self.flags[place] = 1;
        self.waiting += 1;
        Ok(())
    }

    // Hands out the first.
    fn take(&mut self) -> Option<usize>
        ensures taken { MatchOption result
            (NoneWaits (queue_waits self.old) × (self.new ≡ self.old))
            (λ p. Takes (queue_waits self.old) self.old.tally p (queue_waits self.new) self.new.tally) }
        ensures order { MatchOption result (queued self.old ≡ []) (λ p. queued self.old ≡ p ∷ queued self.new) }
        ensures stays { QueueStays self.old self.new }
    {
        if self.waiting == 0 {
            return None;
        }
        let place = self.ring[self.head] as usize;
        let next = turned(self.size, self.head + 1);
        self.flags[place] = 0;
        self.head = next;
        self.waiting -= 1;
        self.tally = self.tally.saturating_add(1);
        Some(place)
    }

    fn count(&self) -> Count {
        Count {
            size: self.size,
            waiting: self.waiting,
            tally: self.tally,
        }
    }
}
