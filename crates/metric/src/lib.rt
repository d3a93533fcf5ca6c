// Metrics: the weights of a step between neighbours, level by level, and the distance of an offset.
#![tactic(auto)]

ghost use Rattle.std.specs.Prelude.{◌≡◌, unsigned_abs};
ghost use Rattle.metric.specs.Model.{Model};
ghost use Rattle.metric.specs.Laws.{Lawful};

pub mod chamfer;
pub mod chessboard;
pub mod city_block;
mod ranges;
pub mod squared_euclidean;
pub mod steady;
#[cfg(test)]
mod tests;
pub mod weights;

use weights::Weights;

// A metric is known by its model, and whoever writes one shows that the model keeps the laws.
pub trait Metric {
    // The numbers that the methods give, as functions.
    ghost model: { Self → Model };

    // The weight of a step to a straight neighbour.
    fn straight(&self, level: u32) -> u32
        ensures { result ≡ (model self.now).straight level };

    // The weight of a step to a diagonal neighbour.
    fn diagonal(&self, level: u32) -> u32
        ensures { result ≡ (model self.now).diagonal level };

    // The distance of an offset.
    fn far(&self, columns: i32, rows: i32) -> u32
        ensures { result ≡ (model self.now).far (unsigned_abs columns) (unsigned_abs rows) };

    // Whether no weight changes with the level.
    fn is_steady(&self) -> bool
        ensures { result ≡ (model self.now).steady };

    // Whether far is a sum over columns and rows, and a diagonal step weighs two straight ones.
    fn splits(&self) -> bool
        ensures { result ≡ (model self.now).splits };

    // Both weights of a level.
    final fn weights(&self, level: u32) -> Weights
        ensures straight { result.straight ≡ (model self.now).straight level }
        ensures diagonal { result.diagonal ≡ (model self.now).diagonal level }
    {
        Weights {
            straight: self.straight(level),
            diagonal: self.diagonal(level),
        }
    }

    ghost lawful: { (m : Self) → Lawful (model m) };
}
