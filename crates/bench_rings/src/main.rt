// Measures a ring by every metric and order: settles it, compares each pixel with a search over all air, and prints what was
// found. Then does the same, more briefly, with many small pictures, and runs the greatest sheet.
// It goes the way of `rings`: a trait over how a case settles and what is printed would be longer than what the two share.
#![tactic(auto)]

mod lists;
mod measure;
mod story;

use anyhow::{Context, ensure};
use measure::{Case, WAYS, Way};
use pictures::formula::{FORMULAS, Formula};
use pictures::picture::Picture;
use pictures::random::Random;
use pictures::readings::{Reading, compare, peak};
use sheet::order::Order;
use sheet::size::Size;
use std::alloc::Global;

// The sides of the small pictures go from 1 to this.
const SMALL: usize = 8;

// One pixel in so many of a small picture is air: all of them, some, none.
const RARITIES: [u64; 5] = [1, 2, 5, 20, 0];

// An error where a reading or the peak of a settled case is not what the search finds.
fn check_by_search(heap: Global, case: &Case, searched: &[Reading]) -> anyhow::Result<()> {
    compare(case.readings(heap)?.as_slice(), searched)?;
    ensure!(case.peak()? == peak(searched), "the peak differs");
    Ok(())
}

// Settles a picture by a metric in every way, and gives each way's count, nothing where the way does not admit the metric. An
// error where a pixel differs from the search or from what another way gave, and where the free order took too few places.
fn settle_by_all(
    heap: Global,
    case: &mut Case,
    formula: Formula,
) -> anyhow::Result<Vec<(Way, Option<u64>)>> {
    let picture = case.picture();
    let searched = picture.readings(heap, formula)?;
    // the free order takes each pixel at least once, if there is air
    let least_takes = if picture.air_count() > 0 {
        picture.size.pixels()
    } else {
        0
    };
    let mut first: Option<Vec<u64>> = None;
    let mut counts = Vec::new(heap);
    for way in WAYS {
        let count = settle_anew(case, formula, way);
        if let Some(count) = count {
            check_by_search(heap, case, searched.as_slice()).context(formula)?;
            let others = first.get_or_insert(Vec::from_slice(heap, case.keys())?);
            compare(case.keys(), others.as_slice()).context(formula)?;
            ensure!(
                way.order() != Order::Free || least_takes as u64 <= count,
                "the free order took too few places"
            );
        }
        counts.push((way, count))?;
    }
    Ok(counts)
}

// Settles a picture by a metric in one of the ways, whether its bench is open or settled; nothing where the way does not admit
// the metric.
fn settle_anew(case: &mut Case, formula: Formula, way: Way) -> Option<u64> {
    // refused where the bench is open already
    let _ = case.reopen();
    case.settle(formula, way).ok()
}

// Prints the count of each way.
fn print_counts(rt: &HostRuntime, counts: &[(Way, Option<u64>)]) -> anyhow::Result<()> {
    for (way, count) in counts {
        match count {
            Some(count) => println!(rt; "  {way}: count {count}")?,
            None => println!(rt; "  {way}: refused, it does not admit the metric")?,
        }
    }
    Ok(())
}

// Measures the ring, with some lines for each metric.
fn measure_ring(rt: &HostRuntime) -> anyhow::Result<()> {
    let mut case = Case::open(rt.alloc(), Picture::ring(rt.alloc())?)?;
    let drawing = case.picture().drawing(rt.alloc())?;
    print!(rt; "{drawing}")?;
    let size = case.picture().size;
    let Size { width, height } = size;
    let pixels = size.pixels();
    let air = case.picture().air_count();
    let carbon = pixels.saturating_sub(air);
    for formula in FORMULAS {
        let counts = settle_by_all(rt.alloc(), &mut case, formula)?;
        println!(rt; "{formula}: {width} x {height}, {air} air and {carbon} carbon pixels")?;
        print_counts(rt, counts.as_slice())?;
        // once more, since the last way may have been refused
        settle_anew(&mut case, formula, Way::Parallel);
        if let Some((distance, place)) = case.peak()? {
            let (row, column) = size.pixel(place as usize)?;
            println!(rt; "  peak: distance {distance} at row {row}, column {column}")?;
        }
        println!(rt;
            "  all {pixels} readings and the peak agree with the search, and all orders and fronts with each other"
        )?;
    }
    Ok(())
}

// The greatest sheet with air in one corner, by squared Euclidean distance and the directional order.
fn measure_corner(rt: &HostRuntime) -> anyhow::Result<()> {
    let size = Size::new(1024, 1024)?;
    let mut case = Case::open(rt.alloc(), Picture::corner(rt.alloc(), size)?)?;
    let count = case.settle(Formula::SquaredEuclidean, Way::Directional)?;
    if let Some((distance, place)) = case.peak()? {
        println!(rt;
            "1024 x 1024 with air in one corner, squared Euclidean, directional: count {count}, distance {distance} at place {place}"
        )?;
    }
    Ok(())
}

// Measures small pictures of every shape.
fn measure_small(rt: &HostRuntime) -> anyhow::Result<()> {
    let mut random = Random::new();
    // counted here, since what is counted may end in an error, and prints
    let mut pictures = 0u64;
    let mut pixels = 0u64;
    for height in 1..=SMALL {
        for width in 1..=SMALL {
            let size = Size::new(width, height)?;
            for rarity in RARITIES {
                let picture = random.picture(rt.alloc(), size, rarity)?;
                let mut case = Case::open(rt.alloc(), picture)?;
                for formula in FORMULAS {
                    settle_by_all(rt.alloc(), &mut case, formula)?;
                }
                pictures = pictures.saturating_add(1);
                pixels = pixels.saturating_add(size.pixels() as u64);
            }
        }
    }
    println!(rt;
        "{pictures} small pictures: all {pixels} readings and all peaks agree with the search, by every metric, order and front"
    )?;
    Ok(())
}

fn run(rt: &HostRuntime) -> anyhow::Result<()> {
    measure_ring(rt)?;
    story::tell(rt)?;
    measure_small(rt)?;
    lists::compare(rt)?;
    measure_corner(rt)
}

fn main(rt: HostRuntime) -> anyhow::Result<()> {
    run(&rt)
}
