ghost use Rattle.std.specs.Prelude.{◌≡◌, Some};
ghost use Rattle.pictures.specs.Distances.{name_of, distance_of};

use std::fmt;

// The four metrics by their formulas: an enum of its own, since the search shares nothing with what it tests.
#[derive(Clone, Copy, PartialEq, Eq, Debug)]
pub enum Formula {
    CityBlock,
    Chessboard,
    Chamfer,
    SquaredEuclidean,
}

pub const FORMULAS: [Formula; 4] = [
    Formula::CityBlock,
    Formula::Chessboard,
    Formula::Chamfer,
    Formula::SquaredEuclidean,
];

impl fmt::Display for Formula {
    ghost output = { λ formula. Some (name_of formula) };

    fn fmt<W: fmt::Write>(&self, f: &mut fmt::Formatter<W>) -> fmt::Result {
        match self {
            Formula::CityBlock => write!(f, "city-block"),
            Formula::Chessboard => write!(f, "chessboard"),
            Formula::Chamfer => write!(f, "chamfer 3-4"),
            Formula::SquaredEuclidean => write!(f, "squared Euclidean"),
        }
    }
}

impl Formula {
    // The distance of an offset of so many columns and rows. Any offset has one; those on a sheet stay far below the greatest.
    pub(crate) fn distance(self, columns: usize, rows: usize) -> u64
        ensures { result ≡ distance_of self columns rows }
    {
        let columns = columns as u64;
        let rows = rows as u64;
        let greater = columns.max(rows);
        let lesser = columns.min(rows);
        match self {
            Formula::CityBlock => columns.saturating_add(rows),
            Formula::Chessboard => greater,
            Formula::Chamfer => (greater - lesser)
                .saturating_mul(3)
                .saturating_add(lesser.saturating_mul(4)),
            Formula::SquaredEuclidean => columns
                .saturating_mul(columns)
                .saturating_add(rows.saturating_mul(rows)),
        }
    }
}
