ghost use Rattle.std.specs.Prelude.{◌≡◌, ◌+◌, ◌*◌, ◌/◌, ◌%◌, ◌<◌, ◌≤◌, ◌||◌, nat_le, nat_lt};
ghost use Rattle.sheet.specs.Pixels.{place_of};
ghost use Rattle.sheet.specs.Refusals.{Answers, check, passed, bad_side};
ghost use Rattle.sheet.specs.declared.refusal.Refusal.TheVariants.{BadSize, ShortMemory, OutOfRange};

use crate::refusal::Refusal;

// The longest side of a sheet.
const LONGEST: usize = 1024;

// The width and height of a sheet, each from 1 to 1024.
#[derive(Clone, Copy, PartialEq, Eq, Debug)]
pub struct Size {
    pub width: usize,
    pub height: usize,
    ghost columns: { 1 ≤ width },
    ghost wide: { width ≤ 1024 },
    ghost rows: { 1 ≤ height },
    ghost tall: { height ≤ 1024 },
}

impl Size {
    pub fn new(width: usize, height: usize) -> Result<Size, Refusal>
        ensures { Answers (check (bad_side width || bad_side height) BadSize passed) (Unit {0}) (λ s. (s.width ≡ width) × (s.height ≡ height)) result }
    {
        if width == 0 || width > LONGEST || height == 0 || height > LONGEST {
            return Err(Refusal::BadSize);
        }
        Ok(Size { width, height })
    }

    // How many pixels the sheet has.
    pub fn pixels(self) -> usize
        ensures { result ≡ self.width * self.height }
    {
        self.width * self.height
    }

    // Refuses a memory that is too short for the sheet.
    pub fn check_memory(self, length: usize) -> Result<(), Refusal>
        ensures { Answers (check (nat_lt length (self.width * self.height)) ShortMemory passed) (Unit {0}) (λ _. Unit {0}) result }
    {
        if length < self.pixels() {
            return Err(Refusal::ShortMemory);
        }
        Ok(())
    }

    // The place of a pixel in raster order.
    pub fn place(self, row: usize, column: usize) -> Result<usize, Refusal>
        ensures { Answers (check (nat_le self.height row || nat_le self.width column) OutOfRange passed) (Unit {0}) (λ p. p ≡ place_of self.width row column) result }
    {
        if row >= self.height || column >= self.width {
            return Err(Refusal::OutOfRange);
        }
        Ok(row * self.width + column)
    }

    // The row and column of a place.
    pub fn pixel(self, place: usize) -> Result<(usize, usize), Refusal>
        ensures { Answers (check (nat_le (self.width * self.height) place) OutOfRange passed) (Unit {0}) (λ p. (p.0 ≡ place / self.width) × (p.1 ≡ place % self.width)) result }
    {
        if place >= self.pixels() {
            return Err(Refusal::OutOfRange);
        }
        Ok((place / self.width, place % self.width))
    }
}
