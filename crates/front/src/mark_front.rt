// The front that hands out its lowest waiting place.
ghost use Rattle.std.specs.Prelude.{◌≤◌, length};
ghost use Rattle.front.specs.Memory.{ClearBelow};

mod methods;

// The first marks of the memory say which places wait; none below `low` does.
// The size stands beside the whole memory: no proof is made that a struct which keeps the first part gives back the rest.
#[derive(Drop)]
pub struct MarkFront<'a> {
    tally: u64,
    low: usize,
    size: usize,
    marks: &'a mut [u8],
    ghost bounded: { size ≤ 1048576 },
    ghost fits: { size ≤ length marks.now },
    ghost within: { low ≤ size },
    ghost below: { ClearBelow marks.now low },
}
