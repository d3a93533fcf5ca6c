use crate::Metric;
use crate::chamfer::Chamfer;
use crate::chessboard::Chessboard;
use crate::city_block::CityBlock;
use crate::squared_euclidean::SquaredEuclidean;

#[test]
fn distances(rt: HostRuntime) {
    assert_eq!(rt; CityBlock.far(4, 2), 6);
    assert_eq!(rt; Chessboard.far(4, -2), 4);
    assert_eq!(rt; Chamfer.far(-4, 2), 14);
    assert_eq!(rt; SquaredEuclidean.far(-4, -2), 20);
    assert_eq!(rt; SquaredEuclidean.far(1023, -1023), 2093058);
    assert_eq!(rt; CityBlock.far(1024, 0), 0);
    assert_eq!(rt; SquaredEuclidean.far(0, i32::MIN), 0);
}

#[test]
fn weights(rt: HostRuntime) {
    assert_eq!(rt; SquaredEuclidean.straight(3), 5);
    assert_eq!(rt; SquaredEuclidean.diagonal(3), 10);
    assert_eq!(rt; SquaredEuclidean.straight(0), 0);
    assert_eq!(rt; SquaredEuclidean.diagonal(1025), 0);
    assert_eq!(rt; Chamfer.straight(1024), 3);
    assert_eq!(rt; Chamfer.diagonal(1), 4);
}

#[test]
fn what_they_tell(rt: HostRuntime) {
    assert!(rt; CityBlock.is_steady() && CityBlock.splits());
    assert!(rt; Chessboard.is_steady() && !Chessboard.splits());
    assert!(rt; Chamfer.is_steady() && !Chamfer.splits());
    assert!(rt; !SquaredEuclidean.is_steady() && SquaredEuclidean.splits());
}
