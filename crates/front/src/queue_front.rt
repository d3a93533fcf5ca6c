// The front that hands out its places in the order put.
ghost use Rattle.std.specs.Prelude.{◌≡◌, ◌<◌, ◌≤◌, length, take, count_by};
ghost use Rattle.front.specs.Memory.{is_set, Live, Apart};

mod methods;

// The waiting places lie in the ring from `head` on, in the order put; a flag for each place says whether it waits.
// The size stands beside the whole memories, as in a mark front; the ring is no deque, since its memory is lent in a slice.
#[derive(Drop)]
pub struct QueueFront<'a> {
    tally: u64,
    head: usize,
    waiting: usize,
    size: usize,
    ring: &'a mut [u32],
    flags: &'a mut [u8],
    ghost bounded: { size ≤ 1048576 },
    ghost fits: { (size ≤ length ring.now) × (size ≤ length flags.now) },
    ghost within: { 0 < size → head < size },
    ghost counted: { waiting ≡ count_by is_set (take size flags.now) },
    ghost live: { Live (take size ring.now) (take size flags.now) head waiting },
    ghost apart: { Apart (take size ring.now) head waiting },
}
