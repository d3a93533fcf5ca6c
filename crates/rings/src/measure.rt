// Settling a picture, and what its keys then say.
use erosion::{directional, parallel, raster};
use metric::Metric;
use metric::chamfer::Chamfer;
use metric::chessboard::Chessboard;
use metric::city_block::CityBlock;
use metric::squared_euclidean::SquaredEuclidean;
use pictures::formula::Formula;
use pictures::picture::Picture;
use pictures::readings::{Reading, farther};
use sheet::key;
use sheet::order::Order;
use sheet::refusal::Refusal;
use std::alloc::{AllocError, Global};

// The orders that are measured.
pub const ORDERS: [Order; 3] = [Order::Parallel, Order::Directional, Order::Raster];

// A picture with the memory to settle it in, as long as the sheet has pixels.
#[derive(Drop)]
pub struct Case {
    pub picture: Picture,
    pub keys: Vec<u64>,
    spare: Vec<u64>,
}

impl Case {
    pub(crate) fn new(heap: Global, picture: Picture) -> Result<Self, AllocError> {
        let pixels = picture.size.pixels();
        Ok(Case {
            picture,
            keys: vec![in heap; 0; pixels]?,
            spare: vec![in heap; 0; pixels]?,
        })
    }

    fn settle_by<M: Metric>(&mut self, metric: &M, order: Order) -> Result<u64, Refusal> {
        let Picture { size, bytes, .. } = &self.picture;
        let size = *size;
        let picture = bytes.as_slice();
        let keys = self.keys.as_mut_slice();
        let spare = self.spare.as_mut_slice();
        // a match, since the order is a value of the table above
        match order {
            Order::Parallel => parallel::settle(size, metric, picture, keys, spare),
            Order::Directional => directional::settle(size, metric, picture, keys, spare),
            Order::Raster => raster::settle(size, metric, picture, keys, spare),
            // the free order takes a front, and there is none here
            Order::Free => Err(Refusal::UnfitFront),
        }
    }

    // Settles the picture by a metric and an order; gives the count.
    pub(crate) fn settle(&mut self, formula: Formula, order: Order) -> Result<u64, Refusal> {
        // each metric is a type of its own, so only a match can choose one
        match formula {
            Formula::CityBlock => self.settle_by(&CityBlock, order),
            Formula::Chessboard => self.settle_by(&Chessboard, order),
            Formula::Chamfer => self.settle_by(&Chamfer, order),
            Formula::SquaredEuclidean => self.settle_by(&SquaredEuclidean, order),
        }
    }

    // What the keys say, place by place.
    pub(crate) fn readings(&self, heap: Global) -> Result<Vec<Reading>, AllocError> {
        self.keys.iter().map(|key| key::reading(*key)).collect(heap)
    }

    // The greatest distance, with the first place that has it; nothing where there is none. It goes by the keys, since their
    // readings take three times as much memory.
    pub(crate) fn deepest(&self) -> Option<(u64, u64)> {
        self.keys
            .iter()
            .enumerate()
            .filter_map(|(place, key)| key::reading(*key).map(|found| (found.0, place as u64)))
            .fold(None, farther)
    }
}
