ghost use Rattle.std.specs.Prelude.{◌≡◌, false};
ghost use Rattle.bench.specs.Calls.{request_of, scene, Answered, uses_front};
ghost use Rattle.bench.specs.Laws.{GoesOn};

use crate::held::{Answer, Bench, Call};
use front::Front;
use metric::Metric;
use sheet::refusal::Refusal;

impl Bench {
    // Answers any call, as the method of its name does. What it found and left is written out in each clause: a shorter name would
    // have to take the same memory.
    pub fn answer<M: Metric, F: Front>(
        &mut self,
        call: Call<M>,
        picture: &mut [u8],
        keys: &mut [u64],
        spare: &mut [u64],
        front: &mut F,
    ) -> Result<Answer, Refusal>
        ensures answered { Answered
            (scene self.old picture.old keys.old spare.old (F.waits front.old) (F.tally front.old))
            (request_of M.model call.entry)
            (scene self.new picture.new keys.new spare.new (F.waits front.new) (F.tally front.new))
            result }
        ensures untouched { uses_front (request_of M.model call.entry) result ≡ false → front.new ≡ front.old }
        ensures runs_on { GoesOn
            (scene self.old picture.old keys.old spare.old (F.waits front.old) (F.tally front.old))
            (request_of M.model call.entry)
            (scene self.new picture.new keys.new spare.new (F.waits front.new) (F.tally front.new))
            result }
    {
        match call {
            Call::Strike { row, column } => {
                self.strike(row, column, picture).map(|()| Answer::Done)
            }
            Call::Restore { row, column } => {
                self.restore(row, column, picture).map(|()| Answer::Done)
            }
            Call::Settle { metric, order } => self
                .settle(metric, order, picture, keys, spare, front)
                .map(Answer::Counted),
            Call::Read { row, column } => self.read(row, column, keys).map(Answer::Reading),
            Call::Peak => self.peak(keys).map(Answer::Highest),
            Call::Reopen => self.reopen(keys).map(|()| Answer::Done),
        }
    }
}
