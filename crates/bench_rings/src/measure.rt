// A picture on a bench, settled in any way.
use bench::Bench;
use front::Front;
use front::mark_front::MarkFront;
use front::queue_front::QueueFront;
use metric::Metric;
use metric::chamfer::Chamfer;
use metric::chessboard::Chessboard;
use metric::city_block::CityBlock;
use metric::squared_euclidean::SquaredEuclidean;
use pictures::formula::Formula;
use pictures::picture::Picture;
use pictures::readings::Reading;
use sheet::order::Order;
use sheet::refusal::Refusal;
use sheet::size::Size;
use std::alloc::Global;
use std::fmt;

// The orders of work, the free one with either front.
#[derive(Clone, Copy)]
pub enum Way {
    Parallel,
    Directional,
    Raster,
    FreeByQueue,
    FreeByMarks,
}

pub const WAYS: [Way; 5] = [
    Way::Parallel,
    Way::Directional,
    Way::Raster,
    Way::FreeByQueue,
    Way::FreeByMarks,
];

impl Way {
    pub(crate) fn order(self) -> Order {
        match self {
            Way::Parallel => Order::Parallel,
            Way::Directional => Order::Directional,
            Way::Raster => Order::Raster,
            Way::FreeByQueue | Way::FreeByMarks => Order::Free,
        }
    }
}

impl fmt::Display for Way {
    fn fmt<W: fmt::Write>(&self, f: &mut fmt::Formatter<W>) -> fmt::Result {
        let order = self.order();
        match self {
            Way::FreeByQueue => write!(f, "{order} order with the queue front"),
            Way::FreeByMarks => write!(f, "{order} order with the mark front"),
            _ => write!(f, "{order} order"),
        }
    }
}

// An opened bench with the memory that its calls are handed, as long as the sheet has pixels.
#[derive(Drop)]
struct Opened {
    bench: Bench,
    picture: Picture,
    keys: Vec<u64>,
    spare: Vec<u64>,
}

impl Opened {
    fn settle<M: Metric, F: Front>(
        &mut self,
        metric: &M,
        order: Order,
        front: &mut F,
    ) -> Result<u64, Refusal> {
        let picture = &self.picture;
        self.bench.settle(
            metric,
            order,
            picture.bytes.as_slice(),
            self.keys.as_mut_slice(),
            self.spare.as_mut_slice(),
            front,
        )
    }
}

// A picture on a bench, with memory for either front.
#[derive(Drop)]
pub struct Case {
    opened: Opened,
    ring: Vec<u32>,
    marks: Vec<u8>,
}

impl Case {
    // Opens a bench over a picture.
    pub(crate) fn open(heap: Global, picture: Picture) -> anyhow::Result<Self> {
        let Size { width, height } = picture.size;
        let pixels = picture.size.pixels();
        let mut keys = vec![in heap; 0; pixels]?;
        let bench = Bench::open(width, height, picture.bytes.as_slice(), keys.as_mut_slice())?;
        Ok(Case {
            opened: Opened {
                bench,
                picture,
                keys,
                spare: vec![in heap; 0; pixels]?,
            },
            ring: vec![in heap; 0; pixels]?,
            marks: vec![in heap; 0; pixels]?,
        })
    }

    pub(crate) fn picture(&self) -> &Picture {
        &self.opened.picture
    }

    pub(crate) fn keys(&self) -> &[u64] {
        self.opened.keys.as_slice()
    }

    pub(crate) fn strike(&mut self, row: usize, column: usize) -> Result<(), Refusal> {
        let Opened { bench, picture, .. } = &mut self.opened;
        bench.strike(row, column, picture.bytes.as_mut_slice())
    }

    pub(crate) fn restore(&mut self, row: usize, column: usize) -> Result<(), Refusal> {
        let Opened { bench, picture, .. } = &mut self.opened;
        bench.restore(row, column, picture.bytes.as_mut_slice())
    }

    fn settle_by<M: Metric>(&mut self, metric: &M, way: Way) -> Result<u64, Refusal> {
        let order = way.order();
        let pixels = self.marks.len();
        let marks = self.marks.as_mut_slice();
        match way {
            Way::FreeByMarks => {
                let mut front = MarkFront::over(pixels, marks);
                self.opened.settle(metric, order, &mut front)
            }
            _ => {
                let mut front = QueueFront::over(pixels, self.ring.as_mut_slice(), marks);
                self.opened.settle(metric, order, &mut front)
            }
        }
    }

    // Settles the picture by a metric in one of the ways; gives the count.
    pub(crate) fn settle(&mut self, formula: Formula, way: Way) -> Result<u64, Refusal> {
        // each metric is a type of its own, so only a match can choose one
        match formula {
            Formula::CityBlock => self.settle_by(&CityBlock, way),
            Formula::Chessboard => self.settle_by(&Chessboard, way),
            Formula::Chamfer => self.settle_by(&Chamfer, way),
            Formula::SquaredEuclidean => self.settle_by(&SquaredEuclidean, way),
        }
    }

    pub(crate) fn read(&self, row: usize, column: usize) -> Result<Reading, Refusal> {
        self.opened.bench.read(row, column, self.keys())
    }

    pub(crate) fn peak(&self) -> Result<Option<(u64, u64)>, Refusal> {
        self.opened.bench.peak(self.keys())
    }

    pub(crate) fn reopen(&mut self) -> Result<(), Refusal> {
        self.opened.bench.reopen(self.opened.keys.as_mut_slice())
    }

    // The readings of all pixels.
    pub(crate) fn readings(&self, heap: Global) -> anyhow::Result<Vec<Reading>> {
        let Size { width, height } = self.picture().size;
        let mut readings = Vec::new(heap);
        for row in 0..height {
            for column in 0..width {
                readings.push(self.read(row, column)?)?;
            }
        }
        Ok(readings)
    }
}
