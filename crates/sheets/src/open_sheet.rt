ghost use Rattle.std.specs.Prelude.{◌≡◌, ◌≢◌};
ghost use Rattle.sheet.specs.Refusals.{Answers};
ghost use Rattle.sheet.specs.declared.order.Order.TheVariants.{Free};
ghost use Rattle.erosion.specs.Rounds.{Settles};
ghost use Rattle.settling.specs.Orders.{settle_refusal, Counts, LeavesFront};
ghost use Rattle.sheets.specs.Calls.{open_refusal, pixel_refusal, marked, blanked};
ghost use Rattle.sheets.specs.Sheets.{SettlesSheet};

use crate::calls;
use crate::held::{OpenSheet, SettledSheet};
use front::Front;
use metric::Metric;
use sheet::order::Order;
use sheet::refusal::Refusal;

impl OpenSheet {
    // Opens a sheet over a picture: the first n keys become blank.
    pub fn open(
        width: usize,
        height: usize,
        picture: &[u8],
        keys: &mut [u64],
    ) -> Result<OpenSheet, Refusal>
        ensures { Answers
            (open_refusal width height picture.now keys.old)
            (keys.new ≡ keys.old)
            (λ sheet. (sheet.size.width ≡ width) × (sheet.size.height ≡ height) × (keys.new ≡ blanked sheet.size keys.old))
            result }
    {
        let size = calls::open(width, height, picture, keys)?;
        Ok(OpenSheet { size })
    }

    // Makes a pixel air.
    pub fn strike(&self, row: usize, column: usize, picture: &mut [u8]) -> Result<(), Refusal>
        ensures { Answers
            (pixel_refusal self.now.size picture.old row column)
            (picture.new ≡ picture.old)
            (λ _. picture.new ≡ marked self.now.size picture.old row column 0)
            result }
    {
        calls::mark(self.size, row, column, calls::AIR, picture)
    }

    // Makes a pixel carbon.
    pub fn restore(&self, row: usize, column: usize, picture: &mut [u8]) -> Result<(), Refusal>
        ensures { Answers
            (pixel_refusal self.now.size picture.old row column)
            (picture.new ≡ picture.old)
            (λ _. picture.new ≡ marked self.now.size picture.old row column 1)
            result }
    {
        calls::mark(self.size, row, column, calls::CARBON, picture)
    }

    // Settles the picture: the first n keys get the settled image, and so does the spare. Uses the sheet up: gives a settled one with
    // the count, or the same sheet again with the refusal.
    pub fn settle<M: Metric, F: Front>(
        self,
        metric: &M,
        order: Order,
        picture: &[u8],
        keys: &mut [u64],
        spare: &mut [u64],
        front: &mut F,
    ) -> Result<(SettledSheet, u64), (OpenSheet, Refusal)>
        ensures settles { SettlesSheet self
            (settle_refusal order (M.model metric.now) self.size picture.now keys.old spare.old (F.waits front.old))
            ((keys.new ≡ keys.old) × (spare.new ≡ spare.old) × (front.new ≡ front.old))
            (λ count. Settles (M.model metric.now) self.size picture.now keys.old keys.new spare.old spare.new
            × Counts order (M.model metric.now) self.size picture.now count
            × LeavesFront order count (F.waits front.old) (F.tally front.old) (F.waits front.new) (F.tally front.new))
            result }
        ensures untouched { (order ≢ Free) → front.new ≡ front.old }
    {
        match settling::settle(self.size, metric, order, picture, keys, spare, front) {
            Ok(count) => {
                let OpenSheet { size } = self;
                Ok((SettledSheet { size }, count))
            }
            Err(refusal) => Err((self, refusal)),
        }
    }

    // Ends the sheet.
    pub fn close(self) {
        let OpenSheet { size: _ } = self;
    }
}
