use crate::{OpenSheet, SettledSheet};
use front::mark_front::MarkFront;
use metric::chessboard::Chessboard;
use metric::squared_euclidean::SquaredEuclidean;
use sheet::key;
use sheet::order::Order;
use sheet::refusal::Refusal;
use std::process::Abort;
use std::test::Fail;

// Reads a row of three, and closes the sheet.
fn read_row(rt: &impl Abort, sheet: SettledSheet, keys: &mut [u64]) {
    let far = sheet.read(0, 2, keys);
    let off = sheet.read(1, 0, keys);
    let peak = sheet.peak(keys);
    let again = match sheet.reopen(keys) {
        Ok(open) => {
            open.close();
            Ok(())
        }
        Err((settled, refusal)) => {
            settled.close();
            Err(refusal)
        }
    };
    assert_eq!(rt; far, Ok(Some((4, 0))));
    assert_eq!(rt; off, Err(Refusal::OutOfRange));
    assert_eq!(rt; peak, Ok(Some((4, 2))));
    assert_eq!(rt; again, Ok(()));
}

// Air is struck at the left end of a row of three, which is then settled, read and reopened.
#[test]
fn row_of_three(rt: HostRuntime) -> Result<(), Fail> {
    let mut picture = [1, 1, 1, 9];
    let mut keys = [7; 4];
    let mut spare = [8; 3];
    let mut marks = [0; 3];
    let mut front = MarkFront::over(3, &mut marks);
    let sheet = OpenSheet::open(3, 1, &picture, &mut keys)?;
    let struck = sheet.strike(0, 0, &mut picture);
    let restored = sheet.restore(0, 3, &mut picture);
    match sheet.settle(
        &SquaredEuclidean,
        Order::Parallel,
        &picture,
        &mut keys,
        &mut spare,
        &mut front,
    ) {
        Ok((settled, count)) => {
            read_row(&rt, settled, &mut keys);
            assert_eq!(rt; count, 3);
        }
        Err((open, refusal)) => {
            open.close();
            assert_eq!(rt; Ok(()), Err(refusal));
        }
    }
    assert_eq!(rt; struck, Ok(()));
    assert_eq!(rt; restored, Err(Refusal::OutOfRange));
    assert_eq!(rt; picture, [0, 1, 1, 9]);
    assert_eq!(rt; keys, [key::BLANK, key::BLANK, key::BLANK, 7]);
    Ok(())
}

// A refused settling gives the same sheet back, and leaves the memory.
#[test]
fn given_back(rt: HostRuntime) -> Result<(), Fail> {
    let picture = [0; 4];
    let mut keys = [5; 4];
    let mut spare = [6; 4];
    let mut marks = [0; 4];
    let mut front = MarkFront::over(4, &mut marks);
    let sheet = OpenSheet::open(2, 2, &picture, &mut keys)?;
    let refusal = match sheet.settle(
        &Chessboard,
        Order::Directional,
        &picture,
        &mut keys,
        &mut spare,
        &mut front,
    ) {
        Ok((settled, _)) => {
            settled.close();
            Ok(())
        }
        Err((open, refusal)) => {
            open.close();
            Err(refusal)
        }
    };
    assert_eq!(rt; refusal, Err(Refusal::NotAdmitted));
    assert_eq!(rt; keys, [key::BLANK; 4]);
    assert_eq!(rt; spare, [6; 4]);
    Ok(())
}
