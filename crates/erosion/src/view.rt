// The keys of a sheet as they are read.
ghost use Rattle.std.specs.Prelude.{◌≡◌};
ghost use Rattle.transform.specs.Directional.{neighbour_key};
ghost use Rattle.erosion.specs.Memory.{Fits, On};

use crate::memory::place;
use sheet::direction::Direction;
use sheet::key;
use sheet::size::Size;

// The keys of a sheet, in memory that is known to hold the sheet.
#[derive(Clone, Copy)]
pub(crate) struct View<'a> {
    pub(crate) size: Size,
    pub(crate) keys: &'a [u64],
    ghost fits: { Fits size keys.now },
}

impl View<'_> {
    ghost use Rattle.erosion.specs.Views.{shown};

    // The key of a pixel.
    pub(crate) fn at(self, row: usize, column: usize) -> u64
        requires { On self.size row column }
        ensures { result ≡ shown self.entry row column }
    {
        self.keys[place(self.size, row, column)]
    }

    // The key of the neighbour in a direction.
    pub(crate) fn neighbour(self, direction: Direction, row: usize, column: usize) -> u64
        requires { On self.size row column }
        ensures { result ≡ neighbour_key direction self.entry.size.height self.entry.size.width (shown self.entry) row column }
    {
        match direction {
            Direction::North if row > 0 => self.at(row - 1, column),
            Direction::South if row + 1 < self.size.height => self.at(row + 1, column),
            Direction::West if column > 0 => self.at(row, column - 1),
            Direction::East if column + 1 < self.size.width => self.at(row, column + 1),
            _ => key::BLANK,
        }
    }
}
