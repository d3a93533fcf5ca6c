// The types of the bench.
use sheet::order::Order;
use sheet::size::Size;

// An open bench takes strikes and has no reading; a settled one has readings and takes no strike.
#[derive(Clone, Copy, PartialEq, Eq, Debug)]
pub enum State {
    Open,
    Settled,
}

// A sheet's size and state. Its picture and keys are memory that is handed to each call.
#[derive(Drop)]
pub struct Bench {
    pub(crate) size: Size,
    pub(crate) state: State,
}

// What a bench is asked. A settling has a metric and an order.
#[derive(Drop)]
pub enum Call<'a, M> {
    Strike { row: usize, column: usize },
    Restore { row: usize, column: usize },
    Settle { metric: &'a M, order: Order },
    Read { row: usize, column: usize },
    Peak,
    Reopen,
}

// What a call gives: a settling its count; a read the distance and place of air; a peak the distance and place of the pixel; both
// nothing where there is no air; any other call nothing.
#[derive(Clone, Copy, PartialEq, Eq, Debug)]
pub enum Answer {
    Done,
    Counted(u64),
    Reading(Option<(u64, u64)>),
    Highest(Option<(u64, u64)>),
}
