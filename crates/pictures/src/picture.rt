ghost use Rattle.std.specs.Prelude.{◌≡◌, ◌+◌, ◌*◌, ◌/◌, ◌%◌, ◌<◌, ◌==◌, None, map, fold, replicate, count_by, IfOk, string_bytes, vec_len};
ghost use Rattle.pictures.specs.Bytes.{HasBytes, byte_of, letter, line_of, lines_of, corner_byte, ring_byte};
ghost use Rattle.pictures.specs.Nearest.{pixel_of, reach, nearer, air_of, nearest_of, readings_of};

use crate::formula::Formula;
use crate::readings::Reading;
use crate::ring::{HEIGHT, WIDTH, in_ring};
use sheet::size::Size;
use std::alloc::{AllocError, Global};

// The byte of a pixel of air; any other is carbon.
pub const AIR: u8 = 0;

// The byte that a pixel of carbon gets here.
pub const CARBON: u8 = 1;

// A sheet's size, and a byte for each of its pixels, row after row.
#[derive(Drop)]
pub struct Picture {
    pub size: Size,
    pub bytes: Vec<u8>,
    ghost full: { vec_len bytes ≡ size.width * size.height },
}

// The byte of a pixel that is carbon or not.
pub(crate) fn byte_of(carbon: bool) -> u8
    ensures { result ≡ byte_of carbon }
{
    if carbon { CARBON } else { AIR }
}

// A full stop for air and a hash for carbon.
fn letter(byte: u8) -> char
    ensures { result ≡ letter byte }
{
    if byte == AIR { '.' } else { '#' }
}

// Of the nearest so far and another, each a distance and a place, the nearer; the former where they are equal. Beside `farther`, since
// one function with the comparison as a closure would be no shorter than the two.
fn nearer(best: Reading, next: (u64, u64)) -> Reading
    ensures { result ≡ nearer best next }
{
    match best {
        Some(found) if found.0 <= next.0 => best,
        _ => Some(next),
    }
}

// A pixel by row and column, with its place.
#[derive(Clone, Copy)]
struct Pixel {
    row: usize,
    column: usize,
    place: u64,
}

impl Pixel {
    // How far another pixel lies by a formula, with its place.
    fn reach(self, formula: Formula, to: Pixel) -> (u64, u64)
        ensures { result ≡ reach formula self to }
    {
        let columns = self.column.abs_diff(to.column);
        let rows = self.row.abs_diff(to.row);
        (formula.distance(columns, rows), to.place)
    }
}

// The nearest of some pixels of air: its distance and place, those of the first where several are so near.
fn nearest_among(formula: Formula, from: Pixel, air: &[Pixel]) -> Reading
    ensures { result ≡ fold nearer None (map (reach formula from) air.now) }
{
    air.iter()
        .map(|pixel| from.reach(formula, *pixel))
        .fold(None, nearer)
}

impl Picture {
    // All carbon.
    pub fn carbon(heap: Global, size: Size) -> Result<Self, AllocError>
        ensures { IfOk result (λ p. (p.size ≡ size) × (p.bytes.items ≡ replicate (size.width * size.height) 1)) }
    {
        let bytes = vec![in heap; CARBON; size.pixels()]?;
        Ok(Picture { size, bytes })
    }

    // All carbon but for the first pixel.
    pub fn corner(heap: Global, size: Size) -> Result<Self, AllocError>
        ensures { IfOk result (λ p. (p.size ≡ size) × HasBytes p.bytes.items (size.width * size.height) corner_byte) }
    {
        let mut picture = Picture::carbon(heap, size)?;
        picture.bytes[0] = AIR;
        Ok(picture)
    }

    // A ring of carbon with a slanted crack and some voids.
    #[tactic(auto, using(crate::proofs::Steps::pushed))]
    pub fn ring(heap: Global) -> Result<Self, AllocError>
        ensures { IfOk result (λ p. (p.size.width ≡ 96) × (p.size.height ≡ 64) × HasBytes p.bytes.items 6144 (λ k. ring_byte (k / 96) (k % 96))) }
    {
        let size = Size {
            width: WIDTH,
            height: HEIGHT,
        };
        let mut bytes = Vec::new(heap);
        // no `collect`: a closure would have to take any number, and `in_ring` takes a pixel of the ring
        for place in 0..WIDTH * HEIGHT {
            bytes.push(byte_of(in_ring(place / WIDTH, place % WIDTH)))?;
        }
        Ok(Picture { size, bytes })
    }

    // How many pixels are air.
    pub fn air_count(&self) -> usize
        ensures { result ≡ count_by (λ byte. byte == 0) self.now.bytes.items }
    {
        self.bytes.iter().filter(|byte| **byte == AIR).count()
    }

    // A row, a letter for each pixel.
    #[tactic(auto, using(crate::proofs::Letters::encoded))]
    fn line(&self, heap: Global, row: usize) -> Result<String, AllocError>
        requires { row < self.now.size.height }
        ensures { IfOk result (λ text. string_bytes text ≡ line_of self.now.size.width self.now.bytes.items row) }
    {
        let start = row * self.size.width;
        self.bytes[start..start + self.size.width]
            .iter()
            .map(|byte| letter(*byte))
            .collect(heap)
    }

    // Every second row, since a letter is about twice as high as it is wide; a line for each.
    #[tactic(auto, using(crate::proofs::Steps::no_line, crate::proofs::Steps::one_more_line))]
    pub fn drawing(&self, heap: Global) -> Result<String, AllocError>
        ensures { IfOk result (λ text. string_bytes text ≡ lines_of self.now.size.width self.now.bytes.items (self.now.size.height / 2)) }
    {
        let mut text = String::new(heap);
        for pair in 0..self.size.height / 2 {
            let line = self.line(heap, 2 * pair)?;
            text.push_str(line.as_str())?;
            text.push('\n')?;
        }
        Ok(text)
    }

    // The pixel of a place, which need not be on the sheet.
    fn pixel(&self, place: usize) -> Pixel
        ensures { result ≡ pixel_of self.now.size.width place }
    {
        Pixel {
            row: place / self.size.width,
            column: place % self.size.width,
            place: place as u64,
        }
    }

    // The distance from a place to its nearest air, with the place of the first air that is so near; nothing where there is no air.
    pub fn nearest(&self, formula: Formula, place: usize) -> Reading
        ensures { result ≡ nearest_of formula self.now.size.width self.now.bytes.items place }
    {
        let from = self.pixel(place);
        self.bytes
            .iter()
            .enumerate()
            .filter(|(_, byte)| **byte == AIR)
            .map(|(air, _)| from.reach(formula, self.pixel(air)))
            .fold(None, nearer)
    }

    // The pixels of air, in raster order.
    fn air(&self, heap: Global) -> Result<Vec<Pixel>, AllocError>
        ensures { IfOk result (λ air. air.items ≡ air_of self.now.size.width self.now.bytes.items) }
    {
        self.bytes
            .iter()
            .enumerate()
            .filter(|(_, byte)| **byte == AIR)
            .map(|(place, _)| self.pixel(place))
            .collect(heap)
    }

    // What `nearest` finds at each place. The air is listed once, so that a place costs no more than there is air.
    pub fn readings(&self, heap: Global, formula: Formula) -> Result<Vec<Reading>, AllocError>
        ensures { IfOk result (λ readings. readings.items ≡ readings_of formula self.now.size.width self.now.bytes.items (self.now.size.width * self.now.size.height)) }
    {
        let air = self.air(heap)?;
        (0..self.size.pixels())
            .map(|place| nearest_among(formula, self.pixel(place), air.as_slice()))
            .collect(heap)
    }
}
