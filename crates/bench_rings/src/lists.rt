// Run lists at random, each with the answer that it must get: readings and peaks by the search, states and refusals by hand.
use crate::measure::{Case, Way};
use anyhow::anyhow;
use bench::State;
use pictures::formula::{FORMULAS, Formula};
use pictures::picture::{AIR, CARBON, Picture};
use pictures::random::Random;
use pictures::readings::peak;
use runlist::answer;
use sheet::size::Size;
use std::alloc::Global;

// How many lists are made, and the most calls of one.
const LISTS: u64 = 300;

const MOST_CALLS: u64 = 40;

// Sides of the sheets go from 1 to this; rows and columns of calls from 0 to this, so that some lie off the sheet.
const SIDE: u64 = 6;

// The figures of an answer: a settling's count stands for the distance, and where a call finds nothing to tell all are 0. A type of this
// program's own, since what is expected shares nothing with what answers.
#[derive(Clone, Copy)]
struct Figures {
    distance: u64,
    row: u64,
    column: u64,
}

// Why a call must be refused, as the number that its line then says. Not the refusals of what answers, for the same reason.
#[derive(Clone, Copy)]
enum Due {
    WrongState = 3,
    OffSheet = 4,
    NotAdmitted = 5,
}

// What a call must give: its figures, nothing for a reading or a peak on a sheet without air, or a refusal.
type Expected = Result<Option<Figures>, Due>;

// The figures of a count, and of a call that finds nothing to tell.
fn counted(count: u64) -> Option<Figures> {
    Some(Figures {
        distance: count,
        row: 0,
        column: 0,
    })
}

// The name of a metric in a run list; what Display prints is another.
fn word(formula: Formula) -> &'static str {
    match formula {
        Formula::CityBlock => "city",
        Formula::Chessboard => "chess",
        Formula::Chamfer => "chamfer",
        Formula::SquaredEuclidean => "euclid",
    }
}

// A sheet as the calls of a list find it.
#[derive(Drop)]
struct Sheet {
    formula: Formula,
    state: State,
    picture: Picture,
}

impl Sheet {
    // Refuses a call that wants the sheet in the other state.
    fn check(&self, wanted: State) -> Result<(), Due> {
        if self.state != wanted {
            return Err(Due::WrongState);
        }
        Ok(())
    }

    fn figures(&self, found: Option<(u64, u64)>) -> Option<Figures> {
        let (distance, place) = found?;
        let width = self.picture.size.width as u64;
        Some(Figures {
            distance,
            row: place / width,
            column: place % width,
        })
    }

    #[tactic(auto, using(std::proofs::lemmas::Nat::rows))]
    fn mark(&mut self, row: usize, column: usize, byte: u8) -> Expected {
        self.check(State::Open)?;
        let picture = &mut self.picture;
        let place = picture.size.place(row, column).map_err(|_| Due::OffSheet)?;
        picture.bytes[place] = byte;
        Ok(counted(0))
    }

    // A count is that of a bench of its own.
    fn settle(&mut self, heap: Global, way: Way) -> anyhow::Result<Expected> {
        let picture = Picture {
            size: self.picture.size,
            bytes: self.picture.bytes.clone()?,
        };
        let count = Case::open(heap, picture)?.settle(self.formula, way).ok();
        Ok(self.settled(count))
    }

    // Takes the count of a settling, or nothing where the order does not admit the metric.
    fn settled(&mut self, count: Option<u64>) -> Expected {
        self.check(State::Open)?;
        let count = count.ok_or(Due::NotAdmitted)?;
        self.state = State::Settled;
        Ok(counted(count))
    }

    fn read(&self, row: usize, column: usize) -> Expected {
        self.check(State::Settled)?;
        let size = self.picture.size;
        let place = size.place(row, column).map_err(|_| Due::OffSheet)?;
        Ok(self.figures(self.picture.nearest(self.formula, place)))
    }

    fn peak(&self, heap: Global) -> anyhow::Result<Expected> {
        let readings = self.picture.readings(heap, self.formula)?;
        let highest = self.figures(peak(readings.as_slice()));
        Ok(self.check(State::Settled).map(|()| highest))
    }

    fn reopen(&mut self) -> Expected {
        self.check(State::Settled)?;
        self.state = State::Open;
        Ok(counted(0))
    }
}

// A list in the making, and its answer.
#[derive(Drop)]
struct Made {
    text: String,
    answer: String,
}

impl Made {
    fn begun(heap: Global, sheet: &Sheet) -> anyhow::Result<Self> {
        let Size { width, height } = sheet.picture.size;
        let metric = word(sheet.formula);
        Ok(Made {
            text: format!(in heap;
                "width,height,metric\n{width},{height},{metric}\ncall,row,column,order\n"
            )?,
            answer: String::from_str(heap, "line,answer,distance,row,column\n")?,
        })
    }

    fn ask(
        &mut self,
        heap: Global,
        letter: char,
        row: usize,
        column: usize,
        order: char,
    ) -> anyhow::Result<()> {
        let line = format!(in heap; "{letter},{row},{column},{order}\n")?;
        self.text.push_str(line.as_str())?;
        Ok(())
    }

    fn expect(&mut self, heap: Global, line: u64, expected: Expected) -> anyhow::Result<()> {
        let words = match expected {
            Ok(
                Some(
                    Figures {
                        distance,
                        row,
                        column,
                    },
                ),
            ) => { format!(in heap; "{line},0,{distance},{row},{column}\n")? }
            Ok(None) => format!(in heap; "{line},0,-,-,-\n")?,
            Err(due) => {
                let number = due as u32;
                format!(in heap; "{line},{number},0,0,0\n")?
            }
        };
        self.answer.push_str(words.as_str())?;
        Ok(())
    }

    // One more call at random.
    fn add_call(
        &mut self,
        heap: Global,
        random: &mut Random,
        sheet: &mut Sheet,
        line: u64,
    ) -> anyhow::Result<()> {
        let row = random.below(SIDE + 1) as usize;
        let column = random.below(SIDE + 1) as usize;
        let expected = match random.below(8) {
            0 | 1 => {
                self.ask(heap, 's', row, column, '-')?;
                sheet.mark(row, column, AIR)
            }
            2 => {
                self.ask(heap, 'u', row, column, '-')?;
                sheet.mark(row, column, CARBON)
            }
            3 => {
                let (letter, way) = match random.below(4) {
                    0 => ('p', Way::Parallel),
                    1 => ('d', Way::Directional),
                    2 => ('r', Way::Raster),
                    _ => ('f', Way::FreeByQueue),
                };
                self.ask(heap, 't', 0, 0, letter)?;
                sheet.settle(heap, way)?
            }
            4 | 5 => {
                self.ask(heap, 'r', row, column, '-')?;
                sheet.read(row, column)
            }
            6 => {
                self.ask(heap, 'p', 0, 0, '-')?;
                sheet.peak(heap)?
            }
            _ => {
                self.ask(heap, 'o', 0, 0, '-')?;
                sheet.reopen()
            }
        };
        self.expect(heap, line, expected)
    }
}

// Makes a list at random and compares its answer with the one that it must get; gives how many calls it has.
fn compare_one(heap: Global, random: &mut Random) -> anyhow::Result<u64> {
    let width = 1 + random.below(SIDE) as usize;
    let height = 1 + random.below(SIDE) as usize;
    let size = Size::new(width, height)?;
    let mut sheet = Sheet {
        formula: FORMULAS[random.below(4) as usize],
        state: State::Open,
        picture: Picture::carbon(heap, size)?,
    };
    let mut made = Made::begun(heap, &sheet)?;
    let calls = random.below(MOST_CALLS);
    for i in 0..calls {
        made.add_call(heap, random, &mut sheet, 4 + i)?;
    }
    if answer(heap, made.text.as_str().as_bytes())? != made.answer {
        return Err(anyhow!("a run list got another answer than it must"));
    }
    Ok(calls)
}

// Compares the answers of many lists.
pub(crate) fn compare(rt: &HostRuntime) -> anyhow::Result<()> {
    let mut random = Random::new();
    // counted here, since a list may end in an error
    let mut calls = 0u64;
    for _ in 0..LISTS {
        calls = calls.saturating_add(compare_one(rt.alloc(), &mut random)?);
    }
    println!(rt; "{LISTS} run lists with {calls} calls: all answers agree with the search")?;
    Ok(())
}
