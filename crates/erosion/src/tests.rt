use crate::start::start;
use crate::{directional, parallel, raster};
use metric::chessboard::Chessboard;
use metric::squared_euclidean::SquaredEuclidean;
use metric::weights::Weights;
use sheet::key;
use sheet::refusal::Refusal;
use sheet::size::Size;
use std::test::Fail;

// Air at both ends of a row of five: the middle names the first of the two.
#[test]
fn first_of_equals(rt: HostRuntime) -> Result<(), Fail> {
    let size = Size::new(5, 1)?;
    let mut keys = [7; 6];
    let mut spare = [8; 5];
    let rounds = parallel::settle(
        size,
        &SquaredEuclidean,
        &[0, 1, 1, 1, 0],
        &mut keys,
        &mut spare,
    )?;
    assert_eq!(rt; rounds, 3);
    assert_eq!(rt; key::reading(keys[2]), Some((4, 0)));
    assert_eq!(rt; key::reading(keys[3]), Some((1, 4)));
    assert_eq!(rt; spare[2], keys[2]);
    assert_eq!(rt; keys[5], 7, "past the sheet");
    Ok(())
}

// Air at the left end of a row of three.
#[test]
fn row_of_three(rt: HostRuntime) -> Result<(), Fail> {
    let size = Size::new(3, 1)?;
    let mut keys = [0; 3];
    let mut spare = [0; 3];
    assert_eq!(rt;
        parallel::settle(size, &SquaredEuclidean, &[0, 1, 1], &mut keys, &mut spare)?,
        3
    );
    assert_eq!(rt; key::reading(keys[2]), Some((4, 0)));
    Ok(())
}

#[test]
fn lone_pixels(rt: HostRuntime) -> Result<(), Fail> {
    let size = Size::new(1, 1)?;
    let mut keys = [5];
    let mut spare = [6];
    assert_eq!(rt;
        parallel::settle(size, &SquaredEuclidean, &[1], &mut keys, &mut spare)?,
        1
    );
    assert_eq!(rt; key::reading(keys[0]), None);
    assert_eq!(rt;
        parallel::settle(size, &SquaredEuclidean, &[0], &mut keys, &mut spare)?,
        1
    );
    assert_eq!(rt; key::reading(keys[0]), Some((0, 0)));
    Ok(())
}

// A round by hand: the weights need not be any metric's.
#[test]
fn one_round(rt: HostRuntime) -> Result<(), Fail> {
    let size = Size::new(2, 2)?;
    let mut keys = [9; 4];
    let mut spare = [9; 5];
    start(size, &[1, 1, 1, 0], &mut keys)?;
    assert_eq!(rt; keys[0], key::BLANK);
    assert_eq!(rt; keys[3], 3);
    let weights = Weights {
        straight: 7,
        diagonal: 5,
    };
    assert_eq!(rt; parallel::round(size, &keys, &mut spare, weights), Ok(true));
    assert_eq!(rt; key::reading(spare[0]), Some((5, 3)));
    assert_eq!(rt; key::reading(spare[1]), Some((7, 3)));
    assert_eq!(rt; spare[4], 9, "past the sheet");
    Ok(())
}

#[test]
fn short_memory(rt: HostRuntime) -> Result<(), Fail> {
    let size = Size::new(2, 2)?;
    let mut keys = [9; 4];
    let mut spare = [8; 3];
    assert_eq!(rt;
        start(size, &[1, 1, 0], &mut keys),
        Err(Refusal::ShortMemory)
    );
    assert_eq!(rt;
        parallel::round(
            size,
            &keys,
            &mut spare,
            Weights {
                straight: 1,
                diagonal: 2,
            },
        ),
        Err(Refusal::ShortMemory)
    );
    assert_eq!(rt;
        parallel::settle(
            size,
            &SquaredEuclidean,
            &[1, 1, 1, 0],
            &mut keys,
            &mut spare,
        ),
        Err(Refusal::ShortMemory)
    );
    assert_eq!(rt; keys, [9; 4]);
    assert_eq!(rt; spare, [8; 3]);
    Ok(())
}

// A row of three by the orders that work along lines.
#[test]
fn along_lines(rt: HostRuntime) -> Result<(), Fail> {
    let size = Size::new(3, 1)?;
    let mut keys = [0; 3];
    let mut spare = [0; 3];
    assert_eq!(rt;
        directional::settle(size, &SquaredEuclidean, &[0, 1, 1], &mut keys, &mut spare)?,
        6
    );
    assert_eq!(rt; key::reading(keys[2]), Some((4, 0)));
    assert_eq!(rt;
        raster::settle(size, &Chessboard, &[0, 1, 1], &mut keys, &mut spare)?,
        2
    );
    assert_eq!(rt; key::reading(keys[2]), Some((2, 0)));
    assert_eq!(rt; spare, keys);
    Ok(())
}

#[test]
fn not_admitted(rt: HostRuntime) -> Result<(), Fail> {
    let size = Size::new(2, 2)?;
    let mut keys = [9; 4];
    let mut spare = [8; 4];
    assert_eq!(rt;
        directional::settle(size, &Chessboard, &[0; 4], &mut keys, &mut spare),
        Err(Refusal::NotAdmitted)
    );
    assert_eq!(rt;
        raster::settle(size, &SquaredEuclidean, &[0; 4], &mut keys, &mut spare),
        Err(Refusal::NotAdmitted)
    );
    assert_eq!(rt; keys, [9; 4]);
    assert_eq!(rt;
        directional::settle(size, &SquaredEuclidean, &[0; 4], &mut keys, &mut spare),
        Ok(4)
    );
    Ok(())
}
