ghost use Rattle.std.specs.Prelude.{IfOk};
ghost use Rattle.sheet.specs.Images.{image_of};
ghost use Rattle.bench.specs.Truth.{ReadingTrue};

use crate::{Answer, Bench, Call};
use front::Front;
use front::mark_front::MarkFront;
use metric::Metric;
use metric::chessboard::Chessboard;
use metric::squared_euclidean::SquaredEuclidean;
use sheet::key;
use sheet::order::Order;
use sheet::refusal::Refusal;
use std::test::Fail;

// Opens a bench, settles it and reads one pixel. The law of runs says of the calls together that the reading is true of the picture.
fn first_reading<M: Metric, F: Front>(
    size: (usize, usize),
    metric: &M,
    pixel: (usize, usize),
    picture: &[u8],
    keys: &mut [u64],
    spare: &mut [u64],
    front: &mut F,
) -> Result<Option<(u64, u64)>, Refusal>
    ensures { IfOk result (λ reading. ReadingTrue (M.model metric.now) size.1 size.0 (image_of size.0 picture.now) pixel.0 pixel.1 reading) }
{
    let mut bench = Bench::open(size.0, size.1, picture, keys)?;
    bench.settle(metric, Order::Parallel, picture, keys, spare, front)?;
    bench.read(pixel.0, pixel.1, keys)
}

// A call by squared Euclidean distance, with a spare and a front of its own.
fn call(
    bench: &mut Bench,
    call: Call<SquaredEuclidean>,
    picture: &mut [u8],
    keys: &mut [u64],
) -> Result<Answer, Refusal> {
    let mut spare = [3; 8];
    let mut marks = [1; 2];
    let mut front = MarkFront::over(2, &mut marks);
    bench.answer(call, picture, keys, &mut spare, &mut front)
}

// Calls on a bench of four by two, all carbon at first.
#[test]
fn by_answer(rt: HostRuntime) -> Result<(), Fail> {
    let mut picture = [1; 8];
    let mut keys = [7; 9];
    let metric = &SquaredEuclidean;
    let mut bench = Bench::open(4, 2, &picture, &mut keys)?;
    let read = Call::Read { row: 0, column: 3 };
    assert_eq!(rt;
        call(&mut bench, read, &mut picture, &mut keys),
        Err(Refusal::WrongState)
    );
    let strike = Call::Strike { row: 0, column: 0 };
    assert_eq!(rt;
        call(&mut bench, strike, &mut picture, &mut keys),
        Ok(Answer::Done)
    );
    let settle = Call::Settle {
        metric,
        order: Order::Parallel,
    };
    assert_eq!(rt;
        call(&mut bench, settle, &mut picture, &mut keys),
        Ok(Answer::Counted(4))
    );
    let read = Call::Read { row: 1, column: 3 };
    assert_eq!(rt;
        call(&mut bench, read, &mut picture, &mut keys),
        Ok(Answer::Reading(Some((10, 0))))
    );
    assert_eq!(rt;
        call(&mut bench, Call::Peak, &mut picture, &mut keys),
        Ok(Answer::Highest(Some((10, 7))))
    );
    assert_eq!(rt;
        call(&mut bench, Call::Reopen, &mut picture, &mut keys),
        Ok(Answer::Done)
    );
    assert_eq!(rt; keys[0], key::BLANK);
    assert_eq!(rt; keys[8], 7, "past the sheet");
    Ok(())
}

// Air at both ends of a row of five: the middle names the first of the two.
#[test]
fn first_of_equals(rt: HostRuntime) {
    let mut marks = [0];
    let mut front = MarkFront::over(1, &mut marks);
    let reading = first_reading(
        (5, 1),
        &SquaredEuclidean,
        (0, 2),
        &[0, 1, 1, 1, 0],
        &mut [7; 5],
        &mut [8; 5],
        &mut front,
    );
    assert_eq!(rt; reading, Ok(Some((4, 0))));
}

// What a bench of one pixel refuses and gives.
#[test]
fn by_methods(rt: HostRuntime) -> Result<(), Fail> {
    let mut picture = [4];
    let mut keys = [7];
    let mut spare = [3];
    let mut marks = [0];
    let mut front = MarkFront::over(1, &mut marks);
    assert!(rt; Bench::open(1025, 1, &picture, &mut keys).is_err());
    let mut bench = Bench::open(1, 1, &picture, &mut keys)?;
    assert_eq!(rt; bench.strike(1, 0, &mut []), Err(Refusal::ShortMemory));
    assert_eq!(rt; bench.strike(1, 0, &mut picture), Err(Refusal::OutOfRange));
    assert_eq!(rt;
        bench.settle(
            &Chessboard,
            Order::Directional,
            &picture,
            &mut keys,
            &mut spare,
            &mut front,
        ),
        Err(Refusal::NotAdmitted)
    );
    assert_eq!(rt;
        bench.settle(
            &Chessboard,
            Order::Raster,
            &picture,
            &mut keys,
            &mut spare,
            &mut front,
        ),
        Ok(2)
    );
    assert_eq!(rt; bench.read(0, 0, &keys), Ok(None));
    assert_eq!(rt; bench.peak(&keys), Ok(None));
    assert_eq!(rt; bench.reopen(&mut keys), Ok(()));
    assert_eq!(rt; bench.restore(0, 0, &mut picture), Ok(()));
    assert_eq!(rt; picture, [1]);
    Ok(())
}
