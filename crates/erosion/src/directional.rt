// The directional order: four phases, in each of which pixels take keys from one side only.
ghost use Rattle.std.specs.Prelude.{◌≡◌, not};
ghost use Rattle.sheet.specs.Refusals.{Answers, check, passed};
ghost use Rattle.sheet.specs.declared.refusal.Refusal.TheVariants.{NotAdmitted};
ghost use Rattle.erosion.specs.Memory.{needs_all, needs_memory};
ghost use Rattle.erosion.specs.Rounds.{Swept, Settles, CountsPhases};

use crate::grid::Grid;
use crate::memory::check_all;
use crate::phases::run_phases;
use metric::Metric;
use sheet::direction::Direction;
use sheet::refusal::Refusal;
use sheet::size::Size;

// A directional round, in place: each pixel gets the least of its key and the key of its neighbour in the direction, stepped
// by the weight, both as before the round. Says whether that altered anything.
pub fn round(
    size: Size,
    keys: &mut [u64],
    direction: Direction,
    straight: u32,
) -> Result<bool, Refusal>
    ensures { Answers
        (needs_memory size keys.old passed)
        (keys.new ≡ keys.old)
        (Swept size direction straight keys.old keys.new)
        result }
{
    size.check_memory(keys.len())?;
    let mut grid = Grid { size, keys };
    Ok(grid.sweep(direction, straight))
}

// Settles a picture by the directional order: the keys get the settled image, and so does the spare. Gives the number of rounds
// of the four phases together. Refuses a metric that does not split.
pub fn settle<M: Metric>(
    size: Size,
    metric: &M,
    picture: &[u8],
    keys: &mut [u64],
    spare: &mut [u64],
) -> Result<u64, Refusal>
    ensures { Answers
        (needs_all size picture.now keys.old spare.old (check (not (M.model metric.now).splits) NotAdmitted passed))
        ((keys.new ≡ keys.old) × (spare.new ≡ spare.old))
        (λ count. Settles (M.model metric.now) size picture.now keys.old keys.new spare.old spare.new × CountsPhases (M.model metric.now) size picture.now count)
        result }
{
    check_all(size, picture, keys, spare)?;
    if !metric.splits() {
        return Err(Refusal::NotAdmitted);
    }
    Ok(run_phases(size, metric, picture, keys, spare))
}
