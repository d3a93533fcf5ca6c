ghost use Rattle.std.specs.Prelude.{◌≡◌, ◌<◌, Some};
ghost use Rattle.sheet.specs.Keys.{key_of, stepped, reading_of};

// The key of a pixel of which no air is known.
pub const BLANK: u64 = u64::MAX;

// A distance counts this much in a key, and a place less.
const UNIT: u64 = 1048576;

// The key of a distance and the place of an air pixel; a place below 1,048,576 is read back with its distance.
pub fn pack(distance: u32, place: u32) -> u64
    ensures value { result ≡ key_of distance place }
    ensures reads { place < 1048576 → reading_of result ≡ Some (distance, place) }
{
    u64::from(distance) * UNIT + u64::from(place)
}

// The key with its distance raised by a weight; blank where that goes past the greatest number.
pub fn step(key: u64, weight: u32) -> u64
    ensures { result ≡ stepped key weight }
{
    key.saturating_add(u64::from(weight) * UNIT)
}

// The distance and the place of air that a key holds; nothing for the blank key.
pub fn reading(key: u64) -> Option<(u64, u64)>
    ensures { result ≡ reading_of key }
{
    if key == BLANK {
        return None;
    }
    Some((key / UNIT, key % UNIT))
}
