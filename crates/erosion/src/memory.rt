// Pixels of a sheet, and their places in memory.
ghost use Rattle.std.specs.Prelude.{◌≡◌, ◌*◌, ◌<◌};
ghost use Rattle.sheet.specs.Pixels.{place_of};
ghost use Rattle.erosion.specs.Walks.{turn};
ghost use Rattle.erosion.specs.Memory.{On, needs_all};
ghost use Rattle.sheet.specs.Refusals.{Answers, passed};

use crate::raster::Sense;
use sheet::refusal::Refusal;
use sheet::size::Size;

// Refuses a picture, keys or a spare that is too short for the sheet.
pub fn check_all(size: Size, picture: &[u8], keys: &[u64], spare: &[u64]) -> Result<(), Refusal>
    ensures { Answers (needs_all size picture.now keys.now spare.now passed) (Unit {0}) (λ _. Unit {0}) result }
{
    size.check_memory(picture.len())?;
    size.check_memory(keys.len())?;
    size.check_memory(spare.len())
}

// The place of a pixel that is known to be on the sheet, which `Size::place` would test.
pub(crate) fn place(size: Size, row: usize, column: usize) -> usize
    requires { On size row column }
    ensures is { result ≡ place_of size.width row column }
    ensures within { result < size.width * size.height }
{
    row * size.width + column
}

// The k-th of so many that are walked in a sense.
pub(crate) fn turned(sense: Sense, count: usize, k: usize) -> usize
    requires { k < count }
    ensures is { result ≡ turn sense count k }
    ensures within { result < count }
{
    match sense {
        Sense::Rising => k,
        Sense::Falling => count - 1 - k,
    }
}
