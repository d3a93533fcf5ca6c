use crate::{free, settle};
use front::Front;
use front::mark_front::MarkFront;
use front::queue_front::QueueFront;
use metric::chamfer::Chamfer;
use metric::squared_euclidean::SquaredEuclidean;
use metric::weights::Weights;
use sheet::key;
use sheet::order::Order;
use sheet::refusal::Refusal;
use sheet::size::Size;
use std::test::Fail;

// Air in the left upper corner of 3 x 2 pixels, by chamfer distance and the queue front.
#[test]
fn corner_by_queue(rt: HostRuntime) -> Result<(), Fail> {
    let size = Size::new(3, 2)?;
    let mut keys = [7; 7];
    let mut spare = [8; 6];
    let mut ring = [0; 6];
    let mut flags = [0; 6];
    let mut front = QueueFront::over(6, &mut ring, &mut flags);
    let count = settle(
        size,
        &Chamfer,
        Order::Free,
        &[0, 1, 1, 1, 1, 1],
        &mut keys,
        &mut spare,
        &mut front,
    )?;
    assert_eq!(rt; count, 6);
    assert_eq!(rt; key::reading(keys[1]), Some((3, 0)));
    assert_eq!(rt; key::reading(keys[4]), Some((4, 0)));
    assert_eq!(rt; key::reading(keys[5]), Some((7, 0)));
    assert_eq!(rt; spare[5], keys[5]);
    assert_eq!(rt; keys[6], 7, "past the sheet");
    assert_eq!(rt; front.count().tally, 6);
    assert_eq!(rt; front.count().waiting, 0);
    Ok(())
}

// Without air nothing is taken.
#[test]
fn no_air_by_marks(rt: HostRuntime) -> Result<(), Fail> {
    let size = Size::new(2, 1)?;
    let mut keys = [0; 2];
    let mut spare = [0; 2];
    let mut marks = [0; 2];
    let mut front = MarkFront::over(2, &mut marks);
    let count = settle(
        size,
        &Chamfer,
        Order::Free,
        &[1, 1],
        &mut keys,
        &mut spare,
        &mut front,
    )?;
    assert_eq!(rt; count, 0);
    assert_eq!(rt; key::reading(keys[1]), None);
    Ok(())
}

// Memory is checked before the metric, and the metric before the front; a refused front is as before.
#[test]
fn refusals_in_turn(rt: HostRuntime) -> Result<(), Fail> {
    let size = Size::new(2, 1)?;
    let picture = [0, 1];
    let mut keys = [5; 2];
    let mut spare = [6; 2];
    let mut marks = [0; 2];
    let mut front = MarkFront::over(1, &mut marks);
    assert_eq!(rt;
        settle(
            size,
            &SquaredEuclidean,
            Order::Free,
            &picture,
            &mut keys,
            &mut spare[0..1],
            &mut front,
        ),
        Err(Refusal::ShortMemory)
    );
    assert_eq!(rt;
        settle(
            size,
            &SquaredEuclidean,
            Order::Free,
            &picture,
            &mut keys,
            &mut spare,
            &mut front,
        ),
        Err(Refusal::NotAdmitted)
    );
    assert_eq!(rt;
        settle(
            size,
            &Chamfer,
            Order::Free,
            &picture,
            &mut keys,
            &mut spare,
            &mut front,
        ),
        Err(Refusal::UnfitFront)
    );
    assert_eq!(rt; keys[0], 5);
    Ok(())
}

// A place that waits makes a front unfit for the free order; the others leave it waiting.
#[test]
fn waiting_front(rt: HostRuntime) -> Result<(), Fail> {
    let size = Size::new(2, 1)?;
    let picture = [0, 1];
    let mut keys = [5; 2];
    let mut spare = [6; 2];
    let mut marks = [0; 2];
    let mut front = MarkFront::over(2, &mut marks);
    front.put(1)?;
    assert_eq!(rt;
        free::settle(size, &Chamfer, &picture, &mut keys, &mut spare, &mut front),
        Err(Refusal::UnfitFront)
    );
    assert_eq!(rt; front.count().waiting, 1);
    let count = settle(
        size,
        &Chamfer,
        Order::Raster,
        &picture,
        &mut keys,
        &mut spare,
        &mut front,
    )?;
    assert_eq!(rt; count, 2);
    assert_eq!(rt; front.count().waiting, 1);
    Ok(())
}

// A pixel in the middle offers its key to its neighbours; exactly the lowered ones wait.
#[test]
fn one_step(rt: HostRuntime) -> Result<(), Fail> {
    let size = Size::new(3, 1)?;
    let mut keys = [0, 1, key::BLANK];
    let mut marks = [0; 3];
    let mut front = MarkFront::over(3, &mut marks);
    let weights = Weights {
        straight: 3,
        diagonal: 4,
    };
    free::spread(size, &mut keys, &mut front, 0, 1, weights)?;
    assert_eq!(rt; keys[0], 0);
    assert_eq!(rt; key::reading(keys[2]), Some((3, 1)));
    assert_eq!(rt; front.count().waiting, 1);
    assert_eq!(rt; front.take(), Some(2));
    assert_eq!(rt;
        free::spread(size, &mut keys, &mut front, 1, 0, weights),
        Err(Refusal::OutOfRange)
    );
    Ok(())
}
