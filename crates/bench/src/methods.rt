ghost use Rattle.std.specs.Prelude.{◌≡◌, ◌*◌, [], IfOk, ◌≢◌};
ghost use Rattle.sheet.specs.Refusals.{Answers, passed};
ghost use Rattle.sheet.specs.declared.order.Order.TheVariants.{Free};
ghost use Rattle.erosion.specs.Rounds.{Settles};
ghost use Rattle.settling.specs.Orders.{settle_refusal, Counts, LeavesFront};
ghost use Rattle.sheets.specs.Calls.{open_refusal, pixel_refusal, memory_refusal, marked, blanked, reading_at, peak_of};
ghost use Rattle.bench.specs.declared.held.Answer.TheVariants.{Done, Counted, Reading, Highest};
ghost use Rattle.bench.specs.declared.held.State.TheVariants.{Open, Settled};
ghost use Rattle.bench.specs.Calls.{strikes, restores, settles, reads, peaks, reopens, scene, turned, in_state, answering};
ghost use Rattle.bench.specs.Runs.{Run};
ghost use Rattle.bench.specs.Laws.{GoesOn, PictureGoesOn, KeysGoOn};

use crate::held::{Bench, State};
use front::Front;
use metric::Metric;
use sheet::order::Order;
use sheet::refusal::Refusal;
use sheets::calls;

impl Bench {
    // Opens a bench over a picture: the first n keys become blank.
    pub fn open(
        width: usize,
        height: usize,
        picture: &[u8],
        keys: &mut [u64],
    ) -> Result<Bench, Refusal>
        ensures answers { Answers
            (open_refusal width height picture.now keys.old)
            (keys.new ≡ keys.old)
            (λ bench. (bench.size.width ≡ width) × (bench.size.height ≡ height) × (bench.state ≡ Open) × (keys.new ≡ blanked bench.size keys.old))
            result }
        ensures begins { IfOk result (λ bench. Run bench.size picture.now [] bench picture.now keys.new) }
    {
        let size = calls::open(width, height, picture, keys)?;
        Ok(Bench {
            size,
            state: State::Open,
        })
    }

    // Makes a pixel air.
    pub fn strike(&self, row: usize, column: usize, picture: &mut [u8]) -> Result<(), Refusal>
        ensures answers { Answers
            (in_state Open self.now.state (pixel_refusal self.now.size picture.old row column))
            (picture.new ≡ picture.old)
            (λ _. picture.new ≡ marked self.now.size picture.old row column 0)
            result }
        ensures runs_on { PictureGoesOn self.now (strikes row column) picture.old picture.new (answering (λ _. Done) result) }
    {
        self.check_state(State::Open)?;
        calls::mark(self.size, row, column, calls::AIR, picture)
    }

    // Makes a pixel carbon.
    pub fn restore(&self, row: usize, column: usize, picture: &mut [u8]) -> Result<(), Refusal>
        ensures answers { Answers
            (in_state Open self.now.state (pixel_refusal self.now.size picture.old row column))
            (picture.new ≡ picture.old)
            (λ _. picture.new ≡ marked self.now.size picture.old row column 1)
            result }
        ensures runs_on { PictureGoesOn self.now (restores row column) picture.old picture.new (answering (λ _. Done) result) }
    {
        self.check_state(State::Open)?;
        calls::mark(self.size, row, column, calls::CARBON, picture)
    }

    // Settles the picture: the first n keys get the settled image, and so does the spare. Gives the count of the order.
    pub fn settle<M: Metric, F: Front>(
        &mut self,
        metric: &M,
        order: Order,
        picture: &[u8],
        keys: &mut [u64],
        spare: &mut [u64],
        front: &mut F,
    ) -> Result<u64, Refusal>
        ensures answers { Answers
            (in_state Open self.old.state (settle_refusal order (M.model metric.now) self.old.size picture.now keys.old spare.old (F.waits front.old)))
            ((self.new ≡ self.old) × (keys.new ≡ keys.old) × (spare.new ≡ spare.old) × (front.new ≡ front.old))
            (λ count. (self.new ≡ turned self.old Settled)
            × Settles (M.model metric.now) self.old.size picture.now keys.old keys.new spare.old spare.new
            × Counts order (M.model metric.now) self.old.size picture.now count
            × LeavesFront order count (F.waits front.old) (F.tally front.old) (F.waits front.new) (F.tally front.new))
            result }
        ensures runs_on { GoesOn
            (scene self.old picture.now keys.old spare.old (F.waits front.old) (F.tally front.old))
            (settles (M.model metric.now) order)
            (scene self.new picture.now keys.new spare.new (F.waits front.new) (F.tally front.new))
            (answering Counted result) }
        ensures untouched { (order ≢ Free) → front.new ≡ front.old }
    {
        self.check_state(State::Open)?;
        let count = settling::settle(self.size, metric, order, picture, keys, spare, front)?;
        self.state = State::Settled;
        Ok(count)
    }

    // The distance from a pixel to its nearest air with the place of that air; nothing where there is no air.
    pub fn read(
        &self,
        row: usize,
        column: usize,
        keys: &[u64],
    ) -> Result<Option<(u64, u64)>, Refusal>
        ensures answers { Answers
            (in_state Settled self.now.state (pixel_refusal self.now.size keys.now row column))
            (Unit {0})
            (λ reading. reading ≡ reading_at self.now.size keys.now row column)
            result }
        ensures runs_on { KeysGoOn self.now (reads row column) keys.now self.now keys.now (answering Reading result) }
    {
        self.check_state(State::Settled)?;
        calls::read(self.size, row, column, keys)
    }

    // The greatest distance with the place of the first pixel that has it; nothing where there is no air.
    pub fn peak(&self, keys: &[u64]) -> Result<Option<(u64, u64)>, Refusal>
        ensures answers { Answers
            (in_state Settled self.now.state (memory_refusal self.now.size keys.now))
            (Unit {0})
            (λ peak. peak ≡ peak_of (self.now.size.width * self.now.size.height) keys.now)
            result }
        ensures runs_on { KeysGoOn self.now peaks keys.now self.now keys.now (answering Highest result) }
    {
        self.check_state(State::Settled)?;
        calls::peak(self.size, keys)
    }

    // Makes the first n keys blank.
    pub fn reopen(&mut self, keys: &mut [u64]) -> Result<(), Refusal>
        ensures answers { Answers
            (in_state Settled self.old.state (memory_refusal self.old.size keys.old))
            ((self.new ≡ self.old) × (keys.new ≡ keys.old))
            (λ _. (self.new ≡ turned self.old Open) × (keys.new ≡ blanked self.old.size keys.old))
            result }
        ensures runs_on { KeysGoOn self.old reopens keys.old self.new keys.new (answering (λ _. Done) result) }
    {
        self.check_state(State::Settled)?;
        calls::clear(self.size, keys)?;
        self.state = State::Open;
        Ok(())
    }

    // Refuses a call that wants the other state.
    fn check_state(&self, wanted: State) -> Result<(), Refusal>
        ensures { Answers (in_state wanted self.now.state passed) (Unit {0}) (λ _. Unit {0}) result }
    {
        if self.state != wanted {
            return Err(Refusal::WrongState);
        }
        Ok(())
    }
}
