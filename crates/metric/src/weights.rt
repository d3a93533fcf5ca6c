// The weights of a level: what a step to a straight neighbour adds to a distance, and what one to a diagonal neighbour adds.
#[derive(Clone, Copy, PartialEq, Eq, Debug)]
pub struct Weights {
    pub straight: u32,
    pub diagonal: u32,
}
