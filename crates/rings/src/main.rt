// Measures a ring by every metric and order: settles it, compares each pixel with a search over all air, and prints what was
// found. Then does the same, more briefly, with many small pictures, and runs the greatest sheet.
#![tactic(auto)]

mod measure;

use anyhow::Context;
use measure::{Case, ORDERS};
use pictures::formula::{FORMULAS, Formula};
use pictures::picture::Picture;
use pictures::random::Random;
use pictures::readings::compare;
use sheet::order::Order;
use sheet::size::Size;
use std::alloc::Global;

// The sides of the small pictures go from 1 to this.
const SMALL: usize = 8;

// One pixel in so many of a small picture is air: all of them, some, none.
const RARITIES: [u64; 5] = [1, 2, 5, 20, 0];

// Settles a picture by a metric and every order, and gives each order's count, nothing where the order does not admit the metric.
// An error where a pixel differs from the search, or from what another order gave.
fn settle_by_all(
    heap: Global,
    case: &mut Case,
    formula: Formula,
) -> anyhow::Result<Vec<(Order, Option<u64>)>> {
    let searched = case.picture.readings(heap, formula)?;
    let mut first: Option<Vec<u64>> = None;
    let mut counts = Vec::new(heap);
    for order in ORDERS {
        let count = case.settle(formula, order).ok();
        if count.is_some() {
            let readings = case.readings(heap)?;
            compare(readings.as_slice(), searched.as_slice()).context(formula)?;
            let others = first.get_or_insert(case.keys.clone()?);
            compare(case.keys.as_slice(), others.as_slice()).context(formula)?;
        }
        counts.push((order, count))?;
    }
    Ok(counts)
}

// Prints the count of each order.
fn print_counts(rt: &HostRuntime, counts: &[(Order, Option<u64>)]) -> anyhow::Result<()> {
    for (order, count) in counts {
        match count {
            Some(count) => println!(rt; "  {order} order: count {count}")?,
            None => println!(rt; "  {order} order: refused, it does not admit the metric")?,
        }
    }
    Ok(())
}

// Measures the ring, with some lines for each metric.
fn measure_ring(rt: &HostRuntime) -> anyhow::Result<()> {
    let mut case = Case::new(rt.alloc(), Picture::ring(rt.alloc())?)?;
    let drawing = case.picture.drawing(rt.alloc())?;
    print!(rt; "{drawing}")?;
    let size = case.picture.size;
    let Size { width, height } = size;
    let pixels = size.pixels();
    let air = case.picture.air_count();
    let carbon = pixels.saturating_sub(air);
    for formula in FORMULAS {
        let counts = settle_by_all(rt.alloc(), &mut case, formula)?;
        println!(rt; "{formula}: {width} x {height}, {air} air and {carbon} carbon pixels")?;
        print_counts(rt, counts.as_slice())?;
        if let Some((distance, place)) = case.deepest() {
            let (row, column) = size.pixel(place as usize)?;
            println!(rt; "  deepest pixel: distance {distance} at row {row}, column {column}")?;
        }
        println!(rt;
            "  all {pixels} pixels agree with the search, and all orders with each other"
        )?;
    }
    Ok(())
}

// The greatest sheet with air in one corner, by squared Euclidean distance and the directional order.
fn measure_corner(rt: &HostRuntime) -> anyhow::Result<()> {
    let size = Size::new(1024, 1024)?;
    let mut case = Case::new(rt.alloc(), Picture::corner(rt.alloc(), size)?)?;
    let count = case.settle(Formula::SquaredEuclidean, Order::Directional)?;
    if let Some((distance, place)) = case.deepest() {
        println!(rt;
            "1024 x 1024 with air in one corner, squared Euclidean, directional: count {count}, distance {distance} at place {place}"
        )?;
    }
    Ok(())
}

// Measures small pictures of every shape.
fn measure_small(rt: &HostRuntime) -> anyhow::Result<()> {
    let mut random = Random::new();
    // counted here, since what is counted may end in an error, and prints
    let mut pictures = 0u64;
    let mut pixels = 0u64;
    for height in 1..=SMALL {
        for width in 1..=SMALL {
            let size = Size::new(width, height)?;
            for rarity in RARITIES {
                let picture = random.picture(rt.alloc(), size, rarity)?;
                let mut case = Case::new(rt.alloc(), picture)?;
                for formula in FORMULAS {
                    settle_by_all(rt.alloc(), &mut case, formula)?;
                }
                pictures = pictures.saturating_add(1);
                pixels = pixels.saturating_add(size.pixels() as u64);
            }
        }
    }
    println!(rt;
        "{pictures} small pictures: all {pixels} pixels agree with the search, by every metric and order"
    )?;
    Ok(())
}

fn run(rt: &HostRuntime) -> anyhow::Result<()> {
    measure_ring(rt)?;
    measure_small(rt)?;
    measure_corner(rt)
}

fn main(rt: HostRuntime) -> anyhow::Result<()> {
    run(&rt)
}
