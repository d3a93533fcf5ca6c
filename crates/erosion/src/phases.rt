// The phases of the directional order. Rows are independent of one another there, so each is brought to rest before the next,
// while it is in the cache; columns are worked as the rows of the sheet with rows and columns exchanged.
ghost use Rattle.std.specs.Prelude.{◌≡◌, ℕ, ◌+◌, ◌<◌, ◌≤◌, max, true, length};
ghost use Rattle.metric.specs.Laws.{Lawful};
ghost use Rattle.metric.specs.Model.{Model};
ghost use Rattle.transform.specs.Directional.{AlongRows, Keyed};
ghost use Rattle.erosion.specs.Memory.{Fits};
ghost use Rattle.erosion.specs.Grids.{held, Stays};
ghost use Rattle.erosion.specs.Phases.{Straights, RowPhase, sweeps_in, PhaseOf};
ghost use Rattle.erosion.specs.Rounds.{Settles, CountsPhases};

use crate::grid::Grid;
use metric::Metric;
use sheet::direction::Direction;
use sheet::size::Size;

// The most levels that a metric has.
const LEVELS: usize = 1024;

// The straight weights of the first levels, each fetched once, in an array, since nothing here asks for memory.
fn straights<M: Metric>(metric: &M, count: usize) -> [u32; LEVELS]
    requires { count ≤ 1024 }
    ensures length { length result ≡ 1024 }
    ensures weights { Straights (M.model metric.now) count result }
{
    let mut weights = [0; LEVELS];
    // by index: `array::from_fn` would ask for 1024 weights on the smallest sheet, and after `iter_mut` a proof knows no element
    for k in 0..count {
        weights[k] = metric.straight(k as u32 + 1);
    }
    weights
}

impl Grid<'_> {
    // A phase of one row, from the west or the east; gives the number of its rounds, of which the last left it as it was.
    fn settle_row(&mut self, weights: &[u32], direction: Direction, row: usize) -> u64
        requires table { length weights.now ≡ self.old.size.width }
        requires along { AlongRows direction }
        requires on { row < self.old.size.height }
        ensures phase { (m : Model) → Lawful m → Straights m self.old.size.width weights.now → Keyed self.old.size.height self.old.size.width (held self.old) → RowPhase self.old.size.width (sweeps_in m direction self.old) row result (held self.new) }
        ensures others { (r c : ℕ) → c < self.old.size.width → (r ≡ row → ⊥) → held self.new r c ≡ held self.old r c }
        ensures stays { Stays self.old self.new }
        ensures few { result ≤ self.old.size.width }
    {
        // no `position`, nor `max` below: a proof knows nothing of a grid after a closure that changes it
        for (k, weight) in weights.iter().enumerate() {
            if !self.sweep_row(direction, row, *weight) {
                return k as u64 + 1;
            }
        }
        self.size.width as u64
    }

    // A phase of all rows, from the west or the east; gives the number of its rounds, which is the greatest over the rows.
    fn settle_rows(&mut self, weights: &[u32], direction: Direction) -> u64
        requires table { length weights.now ≡ self.old.size.width }
        requires along { AlongRows direction }
        ensures phase { (m : Model) → Lawful m → Straights m self.old.size.width weights.now → Keyed self.old.size.height self.old.size.width (held self.old) → PhaseOf m direction self.old result self.new }
        ensures stays { Stays self.old self.new }
        ensures few { result ≤ self.old.size.width }
    {
        let mut most = 0;
        for row in 0..self.size.height {
            most = self.settle_row(weights, direction, row).max(most);
        }
        most
    }
}

// The four phases from the starting image of a picture, in memories that are known to hold the sheet; gives the sum of their
// rounds.
pub(crate) fn run_phases<M: Metric>(
    size: Size,
    metric: &M,
    picture: &[u8],
    keys: &mut [u64],
    spare: &mut [u64],
) -> u64
    requires picture { Fits size picture.now }
    requires keys { Fits size keys.old }
    requires spare { Fits size spare.old }
    requires splits { (M.model metric.now).splits ≡ true }
    ensures settles { Settles (M.model metric.now) size picture.now keys.old keys.new spare.old spare.new }
    ensures counts { CountsPhases (M.model metric.now) size picture.now result }
{
    let weights = straights(metric, size.width.max(size.height));
    let turned = Size {
        width: size.height,
        height: size.width,
    };
    let mut grid = Grid { size, keys };
    let mut across = Grid {
        size: turned,
        keys: spare,
    };
    grid.begin(picture);
    grid.transpose(&mut across);
    let north = across.settle_rows(&weights[..size.height], Direction::West);
    let south = across.settle_rows(&weights[..size.height], Direction::East);
    across.transpose(&mut grid);
    let west = grid.settle_rows(&weights[..size.width], Direction::West);
    let east = grid.settle_rows(&weights[..size.width], Direction::East);
    grid.copy(spare);
    north + south + west + east
}
