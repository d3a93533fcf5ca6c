use crate::formula::Formula;
use crate::picture::{AIR, Picture};
use crate::random::Random;
use crate::readings::{Difference, compare, peak};
use sheet::size::Size;
use std::test::Fail;

// Three columns and one row from the only air.
#[test]
fn distances(rt: HostRuntime) -> Result<(), Fail> {
    let picture = Picture::corner(rt.alloc(), Size::new(4, 2)?)?;
    assert_eq!(rt; picture.nearest(Formula::CityBlock, 7), Some((4, 0)));
    assert_eq!(rt; picture.nearest(Formula::Chessboard, 7), Some((3, 0)));
    assert_eq!(rt; picture.nearest(Formula::Chamfer, 7), Some((10, 0)));
    assert_eq!(rt;
        picture.nearest(Formula::SquaredEuclidean, 7),
        Some((10, 0))
    );
    Ok(())
}

// Air at both ends of a row of five: the middle names the first of the two.
#[test]
fn first_of_equals(rt: HostRuntime) -> Result<(), Fail> {
    let mut picture = Picture::carbon(rt.alloc(), Size::new(5, 1)?)?;
    let nothing = picture.readings(rt.alloc(), Formula::CityBlock)?;
    assert_eq!(rt; peak(nothing.as_slice()), None);
    picture.bytes[0] = AIR;
    picture.bytes[4] = AIR;
    let readings = picture.readings(rt.alloc(), Formula::CityBlock)?;
    let wanted = [
        Some((0, 0)),
        Some((1, 0)),
        Some((2, 0)),
        Some((1, 4)),
        Some((0, 4)),
    ];
    assert_eq!(rt; compare(readings.as_slice(), &wanted), Ok(()));
    assert_eq!(rt;
        compare(readings.as_slice(), nothing.as_slice()),
        Err(Difference { place: 0 })
    );
    assert_eq!(rt; peak(readings.as_slice()), Some((2, 2)));
    Ok(())
}

// Of three rows the first is drawn, since the last has none beside it.
#[test]
fn drawn(rt: HostRuntime) -> Result<(), Fail> {
    let picture = Picture::corner(rt.alloc(), Size::new(3, 3)?)?;
    assert_eq!(rt; picture.drawing(rt.alloc())?.as_str(), ".##\n");
    assert_eq!(rt; Picture::ring(rt.alloc())?.air_count(), 4481);
    Ok(())
}

#[test]
fn at_random(rt: HostRuntime) -> Result<(), Fail> {
    let mut random = Random::new();
    assert_eq!(rt; random.below(10), 4);
    assert_eq!(rt; random.below(0), 0);
    let picture = random.picture(rt.alloc(), Size::new(2, 2)?, 1)?;
    assert_eq!(rt; picture.air_count(), 4);
    Ok(())
}
