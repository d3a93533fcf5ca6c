ghost use Rattle.std.specs.Prelude.{◌≡◌};
ghost use Rattle.sheet.specs.Images.{Same, image_of};
ghost use Rattle.sheet.specs.Refusals.{Answers, passed};
ghost use Rattle.transform.specs.Erosion.{starting};
ghost use Rattle.erosion.specs.Memory.{Shows, Fits, past, needs_memory};
ghost use Rattle.erosion.specs.Grids.{held, Stays};

use crate::grid::Grid;
use sheet::key;
use sheet::refusal::Refusal;
use sheet::size::Size;

impl Grid<'_> {
    // Writes the starting image of a picture.
    pub(crate) fn begin(&mut self, picture: &[u8])
        requires { Fits self.old.size picture.now }
        ensures image { Same self.old.size.height self.old.size.width (held self.new) (starting self.old.size.width (image_of self.old.size.width picture.now)) }
        ensures stays { Stays self.old self.new }
    {
        // keys are written by index: after `iter_mut` a proof knows no element
        for (place, byte) in picture[..self.size.pixels()].iter().enumerate() {
            self.keys[place] = if *byte == 0 { place as u64 } else { key::BLANK };
        }
    }
}

// Writes the starting image of a picture into the keys.
pub fn start(size: Size, picture: &[u8], keys: &mut [u64]) -> Result<(), Refusal>
    ensures { Answers
        (needs_memory size picture.now (needs_memory size keys.old passed))
        (keys.new ≡ keys.old)
        (λ _. Shows size keys.new (starting size.width (image_of size.width picture.now)) × (past size keys.new ≡ past size keys.old))
        result }
{
    size.check_memory(picture.len())?;
    size.check_memory(keys.len())?;
    let mut grid = Grid { size, keys };
    grid.begin(picture);
    Ok(())
}
