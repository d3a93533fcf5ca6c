// Which pixels of the ring are carbon.
ghost use Rattle.std.specs.Prelude.{◌≡◌, ◌<◌, ◌≤◌};
ghost use Rattle.pictures.specs.Bytes.{square_of, wall, crack, void, ring};

pub(crate) const WIDTH: usize = 96;

pub(crate) const HEIGHT: usize = 64;

// The square of the distance between two pixels, by row and column.
fn square(from: (usize, usize), to: (usize, usize)) -> usize
    requires { (from.0 ≤ 1024) × (from.1 ≤ 1024) × (to.0 ≤ 1024) × (to.1 ≤ 1024) }
    ensures { result ≡ square_of from.0 from.1 to.0 to.1 }
{
    let rows = from.0.abs_diff(to.0);
    let columns = from.1.abs_diff(to.1);
    rows * rows + columns * columns
}

// Whether a pixel is in the wall, between the radii 17 and 29, counted in half pixels from the middle of the picture.
fn in_wall(row: usize, column: usize) -> bool
    requires { (row < 64) × (column < 96) }
    ensures { result ≡ wall row column }
{
    let square = square((2 * row, 2 * column), (HEIGHT - 1, WIDTH - 1));
    34 * 34 <= square && square <= 58 * 58
}

// Whether a pixel is in the crack, which runs aslant from the outside into the wall.
fn in_crack(row: usize, column: usize) -> bool
    requires { row < 64 }
    ensures { result ≡ crack row column }
{
    row <= 11 && column == 50 + row / 2
}

// Whether a pixel is in one of four discs of air in the wall.
fn in_void(row: usize, column: usize) -> bool
    requires { (row < 64) × (column < 96) }
    ensures { result ≡ void row column }
{
    let pixel = (row, column);
    square(pixel, (31, 24)) <= 5
        || square(pixel, (52, 38)) <= 2
        || square(pixel, (44, 68)) <= 9
        || square(pixel, (20, 66)) <= 0
}

// Whether a pixel is carbon: in the wall, and neither in the crack nor in a void.
#[tactic(auto, unfolding(crate::specs::Bytes::ring))]
pub(crate) fn in_ring(row: usize, column: usize) -> bool
    requires { (row < 64) × (column < 96) }
    ensures { result ≡ ring row column }
{
    in_wall(row, column) && !in_crack(row, column) && !in_void(row, column)
}
