// The free order: places that wait offer their keys to their neighbours, in whatever sequence the front hands them out. Keys, size
// and front stay side by side: a struct of the three would have to say in each function that it still holds the same two loans.
ghost use Rattle.std.specs.Prelude.{◌≡◌, ℕ, ◌+◌, ◌-◌, ◌*◌, ◌/◌, ◌<◌, ◌≤◌, min, true, false, ◌||◌, length, ◌==◌, ◌≢◌, nat_le, slice_index, slice_index_or};
ghost use Rattle.sheet.specs.Images.{Image, image_of};
ghost use Rattle.sheet.specs.Refusals.{Answers, check, passed};
ghost use Rattle.sheet.specs.declared.refusal.Refusal.TheVariants.{OutOfRange, UnfitFront};
ghost use Rattle.sheet.specs.declared.order.Order.TheVariants.{Free};
ghost use Rattle.front.specs.Waiting.{NoneWaits, idle};
ghost use Rattle.transform.specs.Free.{spread, Stable, Below};
ghost use Rattle.erosion.specs.Memory.{Fits, On, Shows, past, needs_memory};
ghost use Rattle.erosion.specs.Rounds.{Settles};
ghost use Rattle.settling.specs.Spreading.{HasRoom, Spread, too_small};
ghost use Rattle.settling.specs.Within.{Offers, offered, BetweenTakes};
ghost use Rattle.settling.specs.Orders.{settle_refusal, CountsTakes, LeavesFront};

use erosion::memory::check_all;
use erosion::start::start;
use front::Front;
use metric::Metric;
use metric::weights::Weights;
use sheet::key;
use sheet::refusal::Refusal;
use sheet::size::Size;

// The unit of the number by which `row_of` multiplies.
const UNIT: u64 = 4294967296;

// Offers a key to a pixel: one that has a greater key gets it and is put.
fn offer<F: Front>(size: Size, keys: &mut [u64], front: &mut F, row: usize, column: usize, key: u64)
    requires fits { Fits size keys.old }
    requires room { HasRoom size (F.waits front.old) }
    requires on { On size row column }
    ensures pixel { image_of size.width keys.new row column ≡ min (image_of size.width keys.old row column) key }
    ensures others { (r c : ℕ) → c < size.width → (r ≡ row → c ≢ column) → image_of size.width keys.new r c ≡ image_of size.width keys.old r c }
    ensures offers { Offers size keys.old keys.new (F.waits front.old) (F.waits front.new) (F.tally front.old) (F.tally front.new) }
{
    // here and below no `Size::place`, which would test the pixel
    let target = row * size.width + column;
    if key < keys[target] {
        keys[target] = key;
        let _ = front.put(target);
    }
}

// Offers keys to the pixels of a row that lie at most one column from the given one: to the one in that column and to those
// beside it.
fn spread_row<F: Front>(
    size: Size,
    keys: &mut [u64],
    front: &mut F,
    row: usize,
    column: usize,
    middle: u64,
    side: u64,
)
    requires fits { Fits size keys.old }
    requires room { HasRoom size (F.waits front.old) }
    requires on { On size row column }
    ensures line { (c : ℕ) → c < size.width → image_of size.width keys.new row c ≡ offered middle side column (image_of size.width keys.old row) c }
    ensures others { (r c : ℕ) → c < size.width → (r ≢ row) → image_of size.width keys.new r c ≡ image_of size.width keys.old r c }
    ensures offers { Offers size keys.old keys.new (F.waits front.old) (F.waits front.new) (F.tally front.old) (F.tally front.new) }
{
    for at in column.saturating_sub(1)..(column + 2).min(size.width) {
        let key = if at == column { middle } else { side };
        offer(size, keys, front, row, at, key);
    }
}

// Offers the key of a pixel to its neighbours, in memory that is known to hold the sheet. The pixel itself is offered its own
// key, which spares a test.
fn spread_from<F: Front>(
    size: Size,
    keys: &mut [u64],
    front: &mut F,
    row: usize,
    column: usize,
    weights: Weights,
)
    requires fits { Fits size keys.old }
    requires room { HasRoom size (F.waits front.old) }
    requires on { On size row column }
    ensures image { Shows size keys.new (spread weights.straight weights.diagonal (image_of size.width keys.old) row column) }
    ensures offers { Offers size keys.old keys.new (F.waits front.old) (F.waits front.new) (F.tally front.old) (F.tally front.new) }
{
    let key = keys[row * size.width + column];
    let near = key::step(key, weights.straight);
    let across = key::step(key, weights.diagonal);
    for at in row.saturating_sub(1)..(row + 2).min(size.height) {
        let (middle, side) = if at == row {
            (key, near)
        } else {
            (near, across)
        };
        spread_row(size, keys, front, at, column, middle, side);
    }
}

// A pixel offers its key to its neighbours: each that has a greater key than the stepped one gets it and is put into the front.
pub fn spread<F: Front>(
    size: Size,
    keys: &mut [u64],
    front: &mut F,
    row: usize,
    column: usize,
    weights: Weights,
) -> Result<(), Refusal>
    ensures { Answers
        (needs_memory size keys.old (check (nat_le size.height row || nat_le size.width column) OutOfRange (check (too_small size (F.waits front.old)) UnfitFront passed)))
        ((keys.new ≡ keys.old) × (front.new ≡ front.old))
        (λ _. Spread size weights.straight weights.diagonal row column keys.old keys.new (F.waits front.old) (F.waits front.new) × (F.tally front.new ≡ F.tally front.old))
        result }
{
    size.check_memory(keys.len())?;
    size.place(row, column)?;
    if front.count().size < size.pixels() {
        return Err(Refusal::UnfitFront);
    }
    spread_from(size, keys, front, row, column, weights);
    Ok(())
}

// Puts every air place into an empty front.
fn put_air<F: Front>(size: Size, picture: &[u8], front: &mut F)
    requires picture { Fits size picture.now }
    requires room { HasRoom size (F.waits front.old) }
    requires empty { NoneWaits (F.waits front.old) }
    ensures air { (k : ℕ) → k < size.width * size.height → slice_index_or (F.waits front.new) k false ≡ (slice_index picture.now k == 0) }
    ensures rest { (k : ℕ) → size.width * size.height ≤ k → slice_index_or (F.waits front.new) k false ≡ false }
    ensures size { length (F.waits front.new) ≡ length (F.waits front.old) }
    ensures tally { F.tally front.new ≡ F.tally front.old }
{
    for (place, byte) in picture[..size.pixels()].iter().enumerate() {
        if *byte == 0 {
            let _ = front.put(place);
        }
    }
}

// The row of a place, by a number that stands for the width: a multiplication where a division would be.
fn row_of(size: Size, inverse: u64, place: usize) -> usize
    requires inverse { inverse ≡ 4294967296 / size.width + 1 }
    requires on { place < size.width * size.height }
    ensures row { result < size.height }
    ensures starts { result * size.width ≤ place }
    ensures column { place - result * size.width < size.width }
{
    (place as u64 * inverse / UNIT) as usize
}

// Takes place after place until nothing waits; each offers its key to its neighbours.
fn spread_all<F: Front>(size: Size, keys: &mut [u64], front: &mut F, weights: Weights)
    requires fits { Fits size keys.old }
    requires between { BetweenTakes size weights.straight weights.diagonal keys.old (F.waits front.old) (F.tally front.old) }
    ensures between { BetweenTakes size weights.straight weights.diagonal keys.new (F.waits front.new) (F.tally front.new) }
    ensures empty { NoneWaits (F.waits front.new) }
    ensures size { length (F.waits front.new) ≡ length (F.waits front.old) }
    ensures rest { past size keys.new ≡ past size keys.old }
    ensures falls { (k : ℕ) → slice_index keys.new k ≤ slice_index keys.old k }
    ensures above { (goal : Image) → Stable size.height size.width weights.straight weights.diagonal goal → Below size.height size.width goal (image_of size.width keys.old) → Below size.height size.width goal (image_of size.width keys.new) }
    ensures still { NoneWaits (F.waits front.old) → F.tally front.new ≡ F.tally front.old }
{
    let inverse = UNIT / size.width as u64 + 1;
    while let Some(place) = front.take() {
        let row = row_of(size, inverse, place);
        let column = place - row * size.width;
        spread_from(size, keys, front, row, column, weights);
    }
}

// The free order from the starting image of a picture, in memories that are known to hold the sheet; gives the front's tally.
fn run_front<M: Metric, F: Front>(
    size: Size,
    metric: &M,
    picture: &[u8],
    keys: &mut [u64],
    spare: &mut [u64],
    front: &mut F,
) -> u64
    requires picture { Fits size picture.now }
    requires keys { Fits size keys.old }
    requires spare { Fits size spare.old }
    requires room { HasRoom size (F.waits front.old) }
    requires steady { (M.model metric.now).steady ≡ true }
    ensures settles { Settles (M.model metric.now) size picture.now keys.old keys.new spare.old spare.new }
    ensures counts { CountsTakes size picture.now result }
    ensures waits { F.waits front.new ≡ idle (length (F.waits front.old)) }
    ensures tally { F.tally front.new ≡ result }
{
    let weights = metric.weights(1);
    let _ = start(size, picture, keys);
    front.start();
    put_air(size, picture, front);
    spread_all(size, keys, front, weights);
    let pixels = size.pixels();
    spare[0..pixels].copy_from_slice(&keys[0..pixels]);
    front.count().tally
}

// Settles a picture by the free order: the keys get the settled image, and so does the spare; the front is left empty.
// Gives the front's tally. Refuses a metric that is not steady, then a front that is too small or in which a place waits.
pub fn settle<M: Metric, F: Front>(
    size: Size,
    metric: &M,
    picture: &[u8],
    keys: &mut [u64],
    spare: &mut [u64],
    front: &mut F,
) -> Result<u64, Refusal>
    ensures { Answers
        (settle_refusal Free (M.model metric.now) size picture.now keys.old spare.old (F.waits front.old))
        ((keys.new ≡ keys.old) × (spare.new ≡ spare.old) × (front.new ≡ front.old))
        (λ count. Settles (M.model metric.now) size picture.now keys.old keys.new spare.old spare.new
        × CountsTakes size picture.now count
        × LeavesFront Free count (F.waits front.old) (F.tally front.old) (F.waits front.new) (F.tally front.new))
        result }
{
    check_all(size, picture, keys, spare)?;
    if !metric.is_steady() {
        return Err(Refusal::NotAdmitted);
    }
    let count = front.count();
    if count.size < size.pixels() || count.waiting > 0 {
        return Err(Refusal::UnfitFront);
    }
    Ok(run_front(size, metric, picture, keys, spare, front))
}
