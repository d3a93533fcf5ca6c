// Numbers at random, the same in every run.
ghost use Rattle.std.specs.Prelude.{◌≡◌, ◌+◌, ◌*◌, ◌<◌, IfOk};
ghost use Rattle.pictures.specs.Bytes.{HasBytes};
ghost use Rattle.pictures.specs.Numbers.{next_state, drawn, below, states, random_byte};

use crate::picture::{Picture, byte_of};
use sheet::size::Size;
use std::alloc::{AllocError, Global};

#[derive(Clone, Copy, Debug)]
pub struct Random {
    pub state: u64,
}

impl Random {
    pub fn new() -> Self
        ensures { result.state ≡ 1 }
    {
        Random { state: 1 }
    }

    // The next number.
    fn next(&mut self) -> u64
        ensures state { self.new.state ≡ next_state self.old.state }
        ensures drawn { result ≡ drawn self.new.state }
    {
        self.state = self
            .state
            .wrapping_mul(6364136223846793005)
            .wrapping_add(1442695040888963407);
        self.state >> 33
    }

    // A number below a bound, or 0 where the bound is 0.
    pub fn below(&mut self, bound: u64) -> u64
        ensures state { self.new.state ≡ next_state self.old.state }
        ensures number { result ≡ below bound (drawn self.new.state) }
        ensures below { 0 < bound → result < bound }
    {
        self.next().checked_rem(bound).unwrap_or(0)
    }

    // A picture in which one pixel in so many is air; none where that is 0.
    #[tactic(auto, using(crate::proofs::Steps::pushed, crate::proofs::Steps::none_yet, crate::proofs::Steps::one_more))]
    pub fn picture(&mut self, heap: Global, size: Size, one_in: u64) -> Result<Picture, AllocError>
        ensures { IfOk result (λ p. (p.size ≡ size)
            × HasBytes p.bytes.items (size.width * size.height) (λ k. random_byte one_in (drawn (states (k + 1) self.old.state)))
            × (self.new.state ≡ states (size.width * size.height) self.old.state)) }
    {
        let mut bytes = Vec::new(heap);
        // no `collect`: a proof knows nothing of numbers that a closure draws
        for _ in 0..size.pixels() {
            bytes.push(byte_of(self.next().checked_rem(one_in) != Some(0)))?;
        }
        Ok(Picture { size, bytes })
    }
}
