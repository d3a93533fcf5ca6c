// The raster order: two scans, each of which uses the keys that it has already rewritten.
ghost use Rattle.std.specs.Prelude.{◌≡◌, ℕ, ◌+◌, ◌<◌, true, false, not, ◌≢◌};
ghost use Rattle.sheet.specs.Refusals.{Answers, check, passed};
ghost use Rattle.sheet.specs.declared.refusal.Refusal.TheVariants.{NotAdmitted};
ghost use Rattle.erosion.specs.Memory.{Fits, needs_all, needs_memory};
ghost use Rattle.erosion.specs.Grids.{held, Stays};
ghost use Rattle.erosion.specs.Rounds.{Scanned, Settles};
ghost use Rattle.erosion.specs.Walks.{turn, walk_of, walked};
ghost use Rattle.erosion.specs.Window.{prior_of, window_of};

use crate::grid::Grid;
use crate::memory::{check_all, turned};
use crate::parallel::lowest;
use crate::view::View;
use metric::Metric;
use metric::weights::Weights;
use sheet::key;
use sheet::refusal::Refusal;
use sheet::size::Size;

// The sense of a scan: in rising or in falling place.
#[derive(Clone, Copy, PartialEq, Eq, Debug)]
pub enum Sense {
    Rising,
    Falling,
}

impl View<'_> {
    // The key in the row that a scan has passed before.
    fn prior(self, sense: Sense, i: usize, j: usize) -> u64
        requires { i < self.size.height }
        ensures { result ≡ prior_of self.entry.size.width (walk_of sense self.entry.size self.entry.keys.now) i j }
    {
        if i > 0 && j < self.size.width {
            let row = turned(sense, self.size.height, i - 1);
            let column = turned(sense, self.size.width, j);
            self.at(row, column)
        } else {
            key::BLANK
        }
    }
}

impl Grid<'_> {
    // The i-th row of a scan, walked with what it has just rewritten and a window on the row before.
    fn scan_row(&mut self, sense: Sense, i: usize, weights: Weights)
        requires { i < self.old.size.height }
        ensures line { (j : ℕ) → j < self.old.size.width → walked sense self.old.size (held self.new) i j ≡ window_of self.old.size.width weights.straight weights.diagonal (walked sense self.old.size (held self.old)) (walked sense self.old.size (held self.new)) i j }
        ensures others { (r c : ℕ) → c < self.old.size.width → (r ≢ turn sense self.old.size.height i) → held self.new r c ≡ held self.old r c }
        ensures stays { Stays self.old self.new }
    {
        let size = self.size;
        // a local grid: with `self` in the loop a scan takes half as long again
        let keys = &mut *self.keys;
        let mut grid = Grid { size, keys };
        let row = turned(sense, size.height, i);
        let mut west = key::BLANK;
        let mut corner = key::BLANK;
        let mut above = grid.view().prior(sense, i, 0);
        for j in 0..size.width {
            let column = turned(sense, size.width, j);
            let view = grid.view();
            let next = view.prior(sense, i, j + 1);
            let own = view.at(row, column);
            let least = lowest(own, west.min(above), corner.min(next), weights);
            grid.put(row, column, least);
            west = least;
            corner = above;
            above = next;
        }
    }

    // A scan.
    fn scan_rows(&mut self, sense: Sense, weights: Weights)
        ensures scan { Scanned self.old.size sense weights.straight weights.diagonal self.old.keys.now self.new.keys.now }
        ensures stays { Stays self.old self.new }
    {
        for i in 0..self.size.height {
            self.scan_row(sense, i, weights);
        }
    }
}

// A scan, in place: pixel after pixel gets the least of its key and what those of its neighbours offer that come before it in
// the scan, with their keys already rewritten, stepped by the weights.
pub fn scan(size: Size, keys: &mut [u64], sense: Sense, weights: Weights) -> Result<(), Refusal>
    ensures { Answers
        (needs_memory size keys.old passed)
        (keys.new ≡ keys.old)
        (λ _. Scanned size sense weights.straight weights.diagonal keys.old keys.new)
        result }
{
    size.check_memory(keys.len())?;
    let mut grid = Grid { size, keys };
    grid.scan_rows(sense, weights);
    Ok(())
}

// The two scans from the starting image of a picture, in memories that are known to hold the sheet.
fn run_scans<M: Metric>(size: Size, metric: &M, picture: &[u8], keys: &mut [u64], spare: &mut [u64])
    requires picture { Fits size picture.now }
    requires keys { Fits size keys.old }
    requires spare { Fits size spare.old }
    requires steady { (M.model metric.now).steady ≡ true }
    ensures { Settles (M.model metric.now) size picture.now keys.old keys.new spare.old spare.new }
{
    let weights = metric.weights(1);
    let mut grid = Grid { size, keys };
    grid.begin(picture);
    grid.scan_rows(Sense::Rising, weights);
    grid.scan_rows(Sense::Falling, weights);
    grid.copy(spare);
}

// Settles a picture by the raster order: the keys get the settled image, and so does the spare. Gives the number of scans.
// Refuses a metric that is not steady.
pub fn settle<M: Metric>(
    size: Size,
    metric: &M,
    picture: &[u8],
    keys: &mut [u64],
    spare: &mut [u64],
) -> Result<u64, Refusal>
    ensures { Answers
        (needs_all size picture.now keys.old spare.old (check (not (M.model metric.now).steady) NotAdmitted passed))
        ((keys.new ≡ keys.old) × (spare.new ≡ spare.old))
        (λ count. Settles (M.model metric.now) size picture.now keys.old keys.new spare.old spare.new × (count ≡ 2))
        result }
{
    check_all(size, picture, keys, spare)?;
    if !metric.is_steady() {
        return Err(Refusal::NotAdmitted);
    }
    run_scans(size, metric, picture, keys, spare);
    Ok(2)
}
