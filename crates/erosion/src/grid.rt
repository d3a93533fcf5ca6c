// The keys of a sheet as they are written.
ghost use Rattle.std.specs.Prelude.{◌≡◌, ℕ, ◌<◌, ◌≢◌};
ghost use Rattle.erosion.specs.Memory.{Fits, On, Shows, past};

use crate::memory::place;
use crate::view::View;
use sheet::size::Size;

// The keys of a sheet, in memory that is lent to be written and known to hold the sheet.
#[derive(Drop)]
pub(crate) struct Grid<'a> {
    pub(crate) size: Size,
    pub(crate) keys: &'a mut [u64],
    ghost fits: { Fits size keys.now },
}

impl Grid<'_> {
    ghost use Rattle.erosion.specs.Grids.{held, Stays, Exchanged, Alike};

    // The keys as they are read.
    pub(crate) fn view(&self) -> View<'_>
        ensures alike { Alike result self.now }
        ensures keys { result.keys.now ≡ self.now.keys.now }
    {
        View {
            size: self.size,
            keys: self.keys,
        }
    }

    // Writes the key of a pixel.
    pub(crate) fn put(&mut self, row: usize, column: usize, key: u64)
        requires { On self.old.size row column }
        ensures pixel { held self.new row column ≡ key }
        ensures others { (r c : ℕ) → c < self.old.size.width → (r ≡ row → c ≢ column) → held self.new r c ≡ held self.old r c }
        ensures stays { Stays self.old self.new }
    {
        self.keys[place(self.size, row, column)] = key;
    }

    // Writes a row as a column of a grid with rows and columns exchanged.
    fn transpose_row(&self, other: &mut Grid<'_>, row: usize)
        requires exchanged { Exchanged self.now other.old }
        requires on { row < self.now.size.height }
        ensures line { (c : ℕ) → c < self.now.size.width → held other.new c row ≡ held self.now row c }
        ensures others { (r c : ℕ) → r < self.now.size.height → (r ≢ row) → held other.new c r ≡ held other.old c r }
        ensures stays { Stays other.old other.new }
    {
        for column in 0..self.size.width {
            other.put(column, row, self.view().at(row, column));
        }
    }

    // Writes the keys into a grid with rows and columns exchanged.
    pub(crate) fn transpose(&self, other: &mut Grid<'_>)
        requires { Exchanged self.now other.old }
        ensures image { (r c : ℕ) → r < self.now.size.height → c < self.now.size.width → held other.new c r ≡ held self.now r c }
        ensures stays { Stays other.old other.new }
    {
        for row in 0..self.size.height {
            self.transpose_row(other, row);
        }
    }

    // Writes the keys into another memory.
    pub(crate) fn copy(&self, other: &mut [u64])
        requires { Fits self.now.size other.old }
        ensures image { Shows self.now.size other.new (held self.now) }
        ensures rest { past self.now.size other.new ≡ past self.now.size other.old }
    {
        let pixels = self.size.pixels();
        other[..pixels].copy_from_slice(&self.keys[..pixels]);
    }
}
