// The parallel order: whole rounds, each from the image before it.
ghost use Rattle.std.specs.Prelude.{◌≡◌, ℕ, ◌+◌, ◌<◌, true, false, ◌≢◌};
ghost use Rattle.sheet.specs.Refusals.{Answers, passed};
ghost use Rattle.erosion.specs.Views.{shown};
ghost use Rattle.erosion.specs.Grids.{held, Stays, Alike};
ghost use Rattle.erosion.specs.Memory.{Fits, On, needs_all, needs_memory};
ghost use Rattle.erosion.specs.Window.{east_of, upright_of, lowest_of};
ghost use Rattle.erosion.specs.Rounds.{Rounded, round_of, Settles, CountsRounds};

use crate::grid::Grid;
use crate::memory::check_all;
use crate::view::View;
use metric::Metric;
use metric::weights::Weights;
use sheet::direction::Direction;
use sheet::key;
use sheet::refusal::Refusal;
use sheet::size::Size;

impl View<'_> {
    // The lesser of the keys north and south of a pixel.
    fn upright(self, row: usize, column: usize) -> u64
        requires { On self.size row column }
        ensures { result ≡ upright_of self.entry.size.height (shown self.entry) row column }
    {
        self.neighbour(Direction::North, row, column)
            .min(self.neighbour(Direction::South, row, column))
    }

    // The lesser of the keys north and south of the pixel to the east.
    fn east_upright(self, row: usize, column: usize) -> u64
        requires { On self.size row column }
        ensures { result ≡ east_of self.entry.size.width (upright_of self.entry.size.height (shown self.entry)) row column }
    {
        if column + 1 < self.size.width {
            self.upright(row, column + 1)
        } else {
            key::BLANK
        }
    }
}

// The least of a key and its neighbours' least keys stepped: one sum for the straight and one for the diagonal ones.
pub(crate) fn lowest(own: u64, near: u64, across: u64, weights: Weights) -> u64
    ensures { result ≡ lowest_of own near across weights.straight weights.diagonal }
{
    own.min(key::step(near, weights.straight))
        .min(key::step(across, weights.diagonal))
}

impl Grid<'_> {
    // A row of a round from a view, walked with a window three pixels wide; says whether it altered anything.
    fn erode_row(&mut self, from: View<'_>, row: usize, weights: Weights) -> bool
        requires alike { Alike from self.old }
        requires on { row < from.size.height }
        ensures line { (c : ℕ) → c < from.entry.size.width → held self.new row c ≡ round_of from.entry.size weights.straight weights.diagonal from.entry.keys.now row c }
        ensures others { (r c : ℕ) → c < from.entry.size.width → (r ≢ row) → held self.new r c ≡ held self.old r c }
        ensures stays { Stays self.old self.new }
        ensures idle { result ≡ false → (c : ℕ) → c < from.entry.size.width → round_of from.entry.size weights.straight weights.diagonal from.entry.keys.now row c ≡ shown from.entry row c }
        ensures busy { result ≡ true → ((c : ℕ) → c < from.entry.size.width → round_of from.entry.size weights.straight weights.diagonal from.entry.keys.now row c ≡ shown from.entry row c) → ⊥ }
    {
        let mut altered = false;
        let mut west = key::BLANK;
        let mut west_pair = key::BLANK;
        let mut own = from.at(row, 0);
        let mut pair = from.upright(row, 0);
        for column in 0..from.size.width {
            let east = from.neighbour(Direction::East, row, column);
            let east_pair = from.east_upright(row, column);
            let least = lowest(
                own,
                west.min(east).min(pair),
                west_pair.min(east_pair),
                weights,
            );
            if least != own {
                altered = true;
            }
            self.put(row, column, least);
            west = own;
            west_pair = pair;
            own = east;
            pair = east_pair;
        }
        altered
    }

    // A round from a view.
    fn erode(&mut self, from: View<'_>, weights: Weights) -> bool
        requires { Alike from self.old }
        ensures round { Rounded from.entry.size weights.straight weights.diagonal from.entry.keys.now self.old.keys.now self.new.keys.now result }
        ensures stays { Stays self.old self.new }
    {
        let mut altered = false;
        for row in 0..from.size.height {
            if self.erode_row(from, row, weights) {
                altered = true;
            }
        }
        altered
    }
}

// A parallel round: the spare gets, at each pixel, the least of its key and its neighbours' keys stepped by the weights.
// Says whether that altered anything.
pub fn round(size: Size, keys: &[u64], spare: &mut [u64], weights: Weights) -> Result<bool, Refusal>
    ensures { Answers
        (needs_memory size keys.now (needs_memory size spare.old passed))
        (spare.new ≡ spare.old)
        (Rounded size weights.straight weights.diagonal keys.now spare.old spare.new)
        result }
{
    size.check_memory(keys.len())?;
    size.check_memory(spare.len())?;
    let mut grid = Grid { size, keys: spare };
    Ok(grid.erode(View { size, keys }, weights))
}

// Rounds from the starting image up to the first that alters nothing, in memories that are known to hold the sheet; gives
// their number. Keys and spare take turns as the image before a round, and agree after the last, which alters nothing.
fn run_rounds<M: Metric>(
    size: Size,
    metric: &M,
    picture: &[u8],
    keys: &mut [u64],
    spare: &mut [u64],
) -> u64
    requires picture { Fits size picture.now }
    requires keys { Fits size keys.old }
    requires spare { Fits size spare.old }
    ensures settles { Settles (M.model metric.now) size picture.now keys.old keys.new spare.old spare.new }
    ensures counts { CountsRounds (M.model metric.now) size picture.now result }
{
    let mut grid = Grid { size, keys };
    let mut other = Grid { size, keys: spare };
    grid.begin(picture);
    // no `for`: the number of rounds is what is to be found, and two a turn spare exchanging the grids
    let mut level = 0;
    'rounds: loop {
        level += 1;
        if !other.erode(grid.view(), metric.weights(level)) {
            return u64::from(level);
        }
        level += 1;
        if !grid.erode(other.view(), metric.weights(level)) {
            return u64::from(level);
        }
    }
}

// Settles a picture by the parallel order: the keys get the settled image, and so does the spare. Gives the number of
// rounds, of which the last is the first that altered nothing.
pub fn settle<M: Metric>(
    size: Size,
    metric: &M,
    picture: &[u8],
    keys: &mut [u64],
    spare: &mut [u64],
) -> Result<u64, Refusal>
    ensures { Answers
        (needs_all size picture.now keys.old spare.old passed)
        ((keys.new ≡ keys.old) × (spare.new ≡ spare.old))
        (λ count. Settles (M.model metric.now) size picture.now keys.old keys.new spare.old spare.new × CountsRounds (M.model metric.now) size picture.now count)
        result }
{
    check_all(size, picture, keys, spare)?;
    Ok(run_rounds(size, metric, picture, keys, spare))
}
