// Directional rounds in memory that is known to hold the sheet.
ghost use Rattle.std.specs.Prelude.{◌≡◌, ℕ, ◌<◌, true, false, ◌≢◌};
ghost use Rattle.erosion.specs.Memory.{On};
ghost use Rattle.erosion.specs.Grids.{held, sweep_in, Stays};
ghost use Rattle.erosion.specs.Rounds.{Swept};
ghost use Rattle.erosion.specs.Walks.{sense_of};

use crate::grid::Grid;
use crate::memory::turned;
use crate::raster::Sense;
use sheet::direction::Direction;
use sheet::key;
use sheet::size::Size;

// The sense in which keys are taken from a direction.
fn sense_of(direction: Direction) -> Sense
    ensures { result ≡ sense_of direction }
{
    match direction {
        Direction::North | Direction::West => Sense::Falling,
        Direction::South | Direction::East => Sense::Rising,
    }
}

impl Grid<'_> {
    // Gives a pixel the lesser of its key and its neighbour's stepped; says whether that altered it.
    fn sweep_pixel(
        &mut self,
        direction: Direction,
        row: usize,
        column: usize,
        straight: u32,
    ) -> bool
        requires { On self.old.size row column }
        ensures pixel { held self.new row column ≡ sweep_in self.old direction straight row column }
        ensures others { (r c : ℕ) → c < self.old.size.width → (r ≡ row → c ≢ column) → held self.new r c ≡ held self.old r c }
        ensures stays { Stays self.old self.new }
        ensures idle { result ≡ false → sweep_in self.old direction straight row column ≡ held self.old row column }
        ensures busy { result ≡ true → sweep_in self.old direction straight row column ≢ held self.old row column }
    {
        let view = self.view();
        let own = view.at(row, column);
        let least = own.min(key::step(view.neighbour(direction, row, column), straight));
        self.put(row, column, least);
        least != own
    }

    // A row of a directional round, in place: each pixel is rewritten before the one that reads it would be wrong. Says whether
    // anything altered.
    pub(crate) fn sweep_row(&mut self, direction: Direction, row: usize, straight: u32) -> bool
        requires { row < self.old.size.height }
        ensures line { (c : ℕ) → c < self.old.size.width → held self.new row c ≡ sweep_in self.old direction straight row c }
        ensures others { (r c : ℕ) → c < self.old.size.width → (r ≢ row) → held self.new r c ≡ held self.old r c }
        ensures stays { Stays self.old self.new }
        ensures idle { result ≡ false → (c : ℕ) → c < self.old.size.width → sweep_in self.old direction straight row c ≡ held self.old row c }
        ensures busy { result ≡ true → ((c : ℕ) → c < self.old.size.width → sweep_in self.old direction straight row c ≡ held self.old row c) → ⊥ }
    {
        let width = self.size.width;
        let mut altered = false;
        for k in 0..width {
            let column = turned(sense_of(direction), width, k);
            if self.sweep_pixel(direction, row, column, straight) {
                altered = true;
            }
        }
        altered
    }

    // A directional round.
    pub(crate) fn sweep(&mut self, direction: Direction, straight: u32) -> bool
        ensures round { Swept self.old.size direction straight self.old.keys.now self.new.keys.now result }
        ensures stays { Stays self.old self.new }
    {
        let height = self.size.height;
        let mut altered = false;
        for k in 0..height {
            let row = turned(sense_of(direction), height, k);
            if self.sweep_row(direction, row, straight) {
                altered = true;
            }
        }
        altered
    }
}
