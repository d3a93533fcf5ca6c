ghost use Rattle.std.specs.Prelude.{Some};
ghost use Rattle.sheet.specs.Orders.{name_of};

use std::fmt;

// The orders of work by which a picture is settled.
#[derive(Clone, Copy, PartialEq, Eq, Debug)]
pub enum Order {
    Parallel,
    Directional,
    Raster,
    Free,
}

impl fmt::Display for Order {
    ghost output = { λ order. Some (name_of order) };

    fn fmt<W: fmt::Write>(&self, f: &mut fmt::Formatter<W>) -> fmt::Result {
        match self {
            Order::Parallel => write!(f, "parallel"),
            Order::Directional => write!(f, "directional"),
            Order::Raster => write!(f, "raster"),
            Order::Free => write!(f, "free"),
        }
    }
}
