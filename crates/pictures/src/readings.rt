// What is known of pixels, from a search or from a settling.
ghost use Rattle.std.specs.Prelude.{◌≡◌, ◌++◌, not, position, option_map, codes, Some};
ghost use Rattle.std.specs.Fmt.{decimal};
ghost use Rattle.std.specs.List.{zip};
ghost use Rattle.std.specs.Result.{result_err};
ghost use Rattle.pictures.specs.Nearest.{farther, peak_of};

use std::error::Error;
use std::fmt;

// The distance to the nearest air with the place of that air; nothing where there is no air.
pub type Reading = Option<(u64, u64)>;

// Of the farthest so far and another, each a distance and a place, the farther; the former where they are equal.
pub fn farther(best: Reading, next: (u64, u64)) -> Reading
    ensures { result ≡ farther best next }
{
    match best {
        Some(found) if next.0 <= found.0 => best,
        _ => Some(next),
    }
}

// The greatest distance of some readings, with the first place that has it; nothing where none has a distance.
pub fn peak(readings: &[Reading]) -> Option<(u64, u64)>
    ensures { result ≡ peak_of readings.now }
{
    readings
        .iter()
        .enumerate()
        .filter_map(|(place, reading)| reading.map(|found| (found.0, place as u64)))
        .fold(None, farther)
}

// Where two lists first differ.
#[derive(Clone, Copy, PartialEq, Eq, Debug)]
pub struct Difference {
    pub place: usize,
}

impl fmt::Display for Difference {
    ghost output = { λ difference. Some (codes "the pixel at place " ++ decimal difference.place ++ codes " differs") };

    fn fmt<W: fmt::Write>(&self, f: &mut fmt::Formatter<W>) -> fmt::Result {
        let place = self.place;
        write!(f, "the pixel at place {place} differs")
    }
}

impl Error for Difference {}

// The first place at which two lists differ.
fn first_difference<T: PartialEq>(items: &[T], others: &[T]) -> Option<usize>
    ensures { result ≡ position (λ pair. not (T.eq pair.0 pair.1)) (zip items.now others.now) }
{
    items
        .iter()
        .zip(others.iter())
        .position(|(item, other)| item != other)
}

// Refuses two lists that differ.
pub fn compare<T: PartialEq>(items: &[T], others: &[T]) -> Result<(), Difference>
    ensures { result_err result ≡ option_map (λ place. record { place = place }) (position (λ pair. not (T.eq pair.0 pair.1)) (zip items.now others.now)) }
{
    match first_difference(items, others) {
        Some(place) => Err(Difference { place }),
        None => Ok(()),
    }
}
