use crate::mark_front::MarkFront;
use crate::queue_front::QueueFront;
use crate::{Count, Front, check_front};
use sheet::refusal::Refusal;
use std::process::Abort;
use std::test::Fail;

// A place that is put twice is handed out once.
fn once<F: Front>(rt: &impl Abort, front: &mut F) {
    assert_eq!(rt; front.put(5), Ok(()));
    assert_eq!(rt; front.put(5), Ok(()));
    assert_eq!(rt; front.put(6), Err(Refusal::OutOfRange));
    assert_eq!(rt; front.count().waiting, 1);
    assert_eq!(rt; front.take(), Some(5));
    assert_eq!(rt; front.take(), None);
    assert_eq!(rt;
        front.count(),
        Count {
            size: 6,
            waiting: 0,
            tally: 1,
        }
    );
}

// The order of three places.
fn order<F: Front>(rt: &impl Abort, front: &mut F, places: [usize; 3]) -> Result<(), Fail> {
    front.start();
    front.put(3)?;
    front.put(1)?;
    front.put(2)?;
    assert_eq!(rt; front.take(), Some(places[0]));
    assert_eq!(rt; front.take(), Some(places[1]));
    assert_eq!(rt; front.take(), Some(places[2]));
    assert_eq!(rt; front.count().tally, 3);
    Ok(())
}

#[test]
fn lowest_first(rt: HostRuntime) -> Result<(), Fail> {
    let mut marks = [7; 8];
    let mut front = MarkFront::over(6, &mut marks);
    once(&rt, &mut front);
    order(&rt, &mut front, [1, 2, 3])?;
    assert_eq!(rt; marks, [0, 0, 0, 0, 0, 0, 7, 7]);
    Ok(())
}

#[test]
fn first_put_first(rt: HostRuntime) -> Result<(), Fail> {
    let mut ring = [9; 6];
    let mut flags = [7; 7];
    let mut front = QueueFront::over(6, &mut ring, &mut flags);
    once(&rt, &mut front);
    order(&rt, &mut front, [3, 1, 2])?;
    // once more, round the end of the ring
    order(&rt, &mut front, [3, 1, 2])?;
    assert_eq!(rt; flags, [0, 0, 0, 0, 0, 0, 7]);
    Ok(())
}

#[test]
fn refused(rt: HostRuntime) {
    assert_eq!(rt; check_front(0, 0), Err(Refusal::BadSize));
    assert_eq!(rt; check_front(1048577, 0), Err(Refusal::BadSize));
    assert_eq!(rt; check_front(3, 2), Err(Refusal::ShortMemory));
    let mut marks = [7; 2];
    let mut front = MarkFront::over(3, &mut marks);
    assert_eq!(rt; front.put(0), Err(Refusal::OutOfRange));
    assert_eq!(rt; front.count().size, 0);
    let mut ring = [9; 1];
    let queue = QueueFront::over(2, &mut ring, &mut marks);
    assert_eq!(rt; queue.count().size, 0);
    assert_eq!(rt; marks, [7; 2]);
}
