// What calls do to the memory of a sheet of a given size. Both sheets and the bench are built on these. A pixel is named by two
// numbers, as image libraries do: a struct would put a name before both at every call, and a neighbour differs in one of them.
ghost use Rattle.std.specs.Prelude.{◌≡◌, ◌*◌, ◌<◌, ◌||◌, length, nat_le, nat_lt};
ghost use Rattle.sheet.specs.Pixels.{place_of};
ghost use Rattle.sheet.specs.Refusals.{Answers, check, passed};
ghost use Rattle.sheet.specs.declared.refusal.Refusal.TheVariants.{ShortMemory, OutOfRange};
ghost use Rattle.sheets.specs.Calls.{open_refusal, pixel_refusal, memory_refusal, marked, blanked, reading_at, higher, peak_of};

use sheet::key;
use sheet::refusal::Refusal;
use sheet::size::Size;

// The byte of a pixel of air.
pub const AIR: u8 = 0;

// The byte that a restored pixel gets.
pub const CARBON: u8 = 1;

// The place of a pixel in a memory of so many elements.
fn place_in(size: Size, count: usize, row: usize, column: usize) -> Result<usize, Refusal>
    ensures { Answers
        (check (nat_lt count (size.width * size.height)) ShortMemory (check (nat_le size.height row || nat_le size.width column) OutOfRange passed))
        (Unit {0})
        (λ place. (place ≡ place_of size.width row column) × (place < count))
        result }
{
    size.check_memory(count)?;
    size.place(row, column)
}

// Writes the byte of a pixel into the picture.
pub fn mark(
    size: Size,
    row: usize,
    column: usize,
    byte: u8,
    picture: &mut [u8],
) -> Result<(), Refusal>
    ensures { Answers
        (pixel_refusal size picture.old row column)
        (picture.new ≡ picture.old)
        (λ _. picture.new ≡ marked size picture.old row column byte)
        result }
{
    let place = place_in(size, picture.len(), row, column)?;
    picture[place] = byte;
    Ok(())
}

// The distance and the place of air of a pixel; nothing where its key is blank. The two stay a pair, as the definitions have them.
pub fn read(
    size: Size,
    row: usize,
    column: usize,
    keys: &[u64],
) -> Result<Option<(u64, u64)>, Refusal>
    ensures { Answers
        (pixel_refusal size keys.now row column)
        (Unit {0})
        (λ reading. reading ≡ reading_at size keys.now row column)
        result }
{
    let place = place_in(size, keys.len(), row, column)?;
    Ok(key::reading(keys[place]))
}

// Makes the keys of the sheet blank.
pub fn clear(size: Size, keys: &mut [u64]) -> Result<(), Refusal>
    ensures { Answers
        (memory_refusal size keys.old)
        (keys.new ≡ keys.old)
        (λ _. keys.new ≡ blanked size keys.old)
        result }
{
    size.check_memory(keys.len())?;
    keys[..size.pixels()].fill(key::BLANK);
    Ok(())
}

// Opens a sheet over a picture: its keys become blank. Gives its size.
pub fn open(width: usize, height: usize, picture: &[u8], keys: &mut [u64]) -> Result<Size, Refusal>
    ensures { Answers
        (open_refusal width height picture.now keys.old)
        (keys.new ≡ keys.old)
        (λ size. (size.width ≡ width) × (size.height ≡ height) × (keys.new ≡ blanked size keys.old))
        result }
{
    let size = Size::new(width, height)?;
    size.check_memory(picture.len())?;
    clear(size, keys)?;
    Ok(size)
}

// Of the best so far and what the key at a place says, the one of greater distance; the former where they are equal.
fn higher(best: Option<(u64, u64)>, reading: Option<(u64, u64)>, place: u64) -> Option<(u64, u64)>
    ensures { result ≡ higher best reading place }
{
    match reading {
        Some((distance, _)) if best.is_none_or(|(most, _)| most < distance) => {
            Some((distance, place))
        }
        _ => best,
    }
}

// The greatest distance in the keys with the first place that has it; nothing where all are blank.
// A loop: no proof was found for the same step in a `fold` over `enumerate`.
fn highest(keys: &[u64]) -> Option<(u64, u64)>
    ensures { result ≡ peak_of (length keys.now) keys.now }
{
    let mut best = None;
    for (place, key) in keys.iter().enumerate() {
        best = higher(best, key::reading(*key), place as u64);
    }
    best
}

// The greatest distance over the keys of the sheet with the first pixel that has it; nothing where all are blank.
pub fn peak(size: Size, keys: &[u64]) -> Result<Option<(u64, u64)>, Refusal>
    ensures { Answers
        (memory_refusal size keys.now)
        (Unit {0})
        (λ peak. peak ≡ peak_of (size.width * size.height) keys.now)
        result }
{
    size.check_memory(keys.len())?;
    Ok(highest(&keys[..size.pixels()]))
}
