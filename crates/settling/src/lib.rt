// One call to settle a picture by any metric, order and front; and the free order.
#![tactic(auto)]

ghost use Rattle.std.specs.Prelude.{◌≡◌, ◌≢◌};
ghost use Rattle.sheet.specs.Refusals.{Answers};
ghost use Rattle.sheet.specs.declared.order.Order.TheVariants.{Free};
ghost use Rattle.erosion.specs.Rounds.{Settles, OrdersAgree};
ghost use Rattle.settling.specs.Orders.{settle_refusal, Counts, LeavesFront};

use erosion::{directional, parallel, raster};
use front::Front;
use metric::Metric;
use sheet::order::Order;
use sheet::refusal::Refusal;
use sheet::size::Size;

pub mod free;
#[cfg(test)]
mod tests;

// Settles a picture: the first n keys get the settled image, and so does the spare. Gives the count of the order.
// Only the free order uses the front. Memory is lent in slices, each a parameter: what a struct of them held afterwards could be said
// only by its fields' places.
pub fn settle<M: Metric, F: Front>(
    size: Size,
    metric: &M,
    order: Order,
    picture: &[u8],
    keys: &mut [u64],
    spare: &mut [u64],
    front: &mut F,
) -> Result<u64, Refusal>
    ensures answers { Answers
        (settle_refusal order (M.model metric.now) size picture.now keys.old spare.old (F.waits front.old))
        ((keys.new ≡ keys.old) × (spare.new ≡ spare.old) × (front.new ≡ front.old))
        (λ count. Settles (M.model metric.now) size picture.now keys.old keys.new spare.old spare.new
        × Counts order (M.model metric.now) size picture.now count
        × LeavesFront order count (F.waits front.old) (F.tally front.old) (F.waits front.new) (F.tally front.new))
        result }
    ensures untouched { (order ≢ Free) → front.new ≡ front.old }
{
    // a match: the order comes from a run list as a value, and each has a function of its own
    match order {
        Order::Parallel => parallel::settle(size, metric, picture, keys, spare),
        Order::Directional => directional::settle(size, metric, picture, keys, spare),
        Order::Raster => raster::settle(size, metric, picture, keys, spare),
        Order::Free => free::settle(size, metric, picture, keys, spare, front),
    }
}

// Every order leaves the same keys, by whatever front.
pub fn orders_agree()
    ensures { OrdersAgree }
{}
