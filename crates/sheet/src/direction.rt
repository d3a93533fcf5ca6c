// The straight directions from which a pixel may take a key.
#[derive(Clone, Copy, PartialEq, Eq, Debug)]
pub enum Direction {
    North,
    South,
    West,
    East,
}
