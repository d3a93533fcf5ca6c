// A bench in use: a ring is opened, struck, settled, read and reopened, and each call is printed with its answer.
use crate::measure::{Case, Way};
use bench::{Answer, Bench};
use front::Front;
use front::queue_front::QueueFront;
use pictures::formula::Formula;
use pictures::picture::Picture;
use sheet::refusal::Refusal;
use sheet::size::Size;

// The row in which the wall is read, and the columns, which go across it.
const READ_ROW: usize = 33;

const READ_COLUMNS: [usize; 7] = [18, 20, 22, 24, 26, 28, 32];

// The pixels of the crack that is struck, from the outside into the wall.
const CRACK: [(usize, usize); 6] = [(36, 20), (36, 21), (35, 22), (35, 23), (34, 24), (34, 25)];

// Prints a distance and a pixel, which a reading and a peak give.
fn print_found(rt: &HostRuntime, case: &Case, found: Option<(u64, u64)>) -> anyhow::Result<()> {
    match found {
        Some((distance, place)) => {
            let (row, column) = case.picture().size.pixel(place as usize)?;
            println!(rt; "distance {distance}, row {row}, column {column}")?;
        }
        None => println!(rt; "nothing")?,
    }
    Ok(())
}

// Prints what a call on a case gave.
fn print_answer(
    rt: &HostRuntime,
    case: &Case,
    answer: Result<Answer, Refusal>,
) -> anyhow::Result<()> {
    match answer {
        Ok(Answer::Done) => println!(rt; "done")?,
        Ok(Answer::Counted(count)) => println!(rt; "count {count}")?,
        Ok(Answer::Reading(found) | Answer::Highest(found)) => print_found(rt, case, found)?,
        Err(refusal) => print_refused(rt, refusal)?,
    }
    Ok(())
}

fn print_refused(rt: &HostRuntime, refusal: Refusal) -> anyhow::Result<()> {
    let number = u32::from(refusal);
    println!(rt; "refused with {number}, {refusal}")?;
    Ok(())
}

// Strikes a pixel, or restores it: makes the call of that name.
fn mark<F: FnOnce(&mut Case, usize, usize) -> Result<(), Refusal>>(
    rt: &HostRuntime,
    case: &mut Case,
    name: &str,
    call: F,
    row: usize,
    column: usize,
) -> anyhow::Result<()>
    requires { F.IsAlwaysCallable call }
{
    print!(rt; "  {name} row {row}, column {column}: ")?;
    let answer = call(case, row, column).map(|()| Answer::Done);
    print_answer(rt, case, answer)
}

fn settle(rt: &HostRuntime, case: &mut Case, formula: Formula, way: Way) -> anyhow::Result<()> {
    let answer = case.settle(formula, way).map(Answer::Counted);
    print_answer(rt, case, answer)
}

fn read(rt: &HostRuntime, case: &Case, row: usize, column: usize) -> anyhow::Result<()> {
    print!(rt; "  read row {row}, column {column}: ")?;
    print_answer(rt, case, case.read(row, column).map(Answer::Reading))
}

// Reads across the wall, and the peak.
fn read_wall(rt: &HostRuntime, case: &Case) -> anyhow::Result<()> {
    for column in READ_COLUMNS {
        read(rt, case, READ_ROW, column)?;
    }
    print!(rt; "  peak: ")?;
    print_answer(rt, case, case.peak().map(Answer::Highest))
}

// The first half of the story: a crack is struck, and the wall is read by squared Euclidean distance.
fn strike_and_read(rt: &HostRuntime, case: &mut Case) -> anyhow::Result<()> {
    read(rt, case, READ_ROW, 24)?;
    for (row, column) in CRACK {
        mark(rt, case, "strike", Case::strike, row, column)?;
    }
    print!(rt; "  settle by chessboard, directional order: ")?;
    settle(rt, case, Formula::Chessboard, Way::Directional)?;
    print!(rt; "  settle by squared Euclidean, directional order: ")?;
    settle(rt, case, Formula::SquaredEuclidean, Way::Directional)?;
    read_wall(rt, case)?;
    read(rt, case, case.picture().size.height, 0)?;
    mark(rt, case, "strike", Case::strike, READ_ROW, 24)
}

// The second half: the bench is reopened, the crack restored, and the wall read by chamfer distance.
fn restore_and_read(rt: &HostRuntime, case: &mut Case) -> anyhow::Result<()> {
    print!(rt; "  reopen: ")?;
    let answer = case.reopen().map(|()| Answer::Done);
    print_answer(rt, case, answer)?;
    for (row, column) in CRACK {
        mark(rt, case, "restore", Case::restore, row, column)?;
    }
    print!(rt; "  settle by chamfer, free order with the mark front: ")?;
    settle(rt, case, Formula::Chamfer, Way::FreeByMarks)?;
    read_wall(rt, case)
}

// A place that is put twice is handed out once.
fn put_twice(rt: &HostRuntime) -> anyhow::Result<()> {
    let mut ring = [0; 8];
    let mut flags = [0; 8];
    let mut front = QueueFront::over(8, &mut ring, &mut flags);
    for _ in 0..2 {
        print!(rt; "front: put 5: ")?;
        match front.put(5) {
            Ok(()) => println!(rt; "done")?,
            Err(refusal) => print_refused(rt, refusal)?,
        }
    }
    for _ in 0..2 {
        match front.take() {
            Some(place) => println!(rt; "front: take: {place}")?,
            None => println!(rt; "front: take: nothing")?,
        }
    }
    Ok(())
}

pub(crate) fn tell(rt: &HostRuntime) -> anyhow::Result<()> {
    let picture = Picture::ring(rt.alloc())?;
    let Size { width, height } = picture.size;
    let mut keys = vec![in rt.alloc(); 0; picture.size.pixels()]?;
    print!(rt; "bench: open 1025 x {height}: ")?;
    let bytes = picture.bytes.as_slice();
    if let Err(refusal) = Bench::open(1025, height, bytes, keys.as_mut_slice()) {
        print_refused(rt, refusal)?;
    }
    print!(rt; "bench: open {width} x {height}: ")?;
    let mut case = Case::open(rt.alloc(), picture)?;
    println!(rt; "done")?;
    strike_and_read(rt, &mut case)?;
    restore_and_read(rt, &mut case)?;
    put_twice(rt)
}
