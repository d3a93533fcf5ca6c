ghost use Rattle.metric.specs.Metrics.{squared_euclidean};
ghost use Rattle.metric.specs.Squared.{squared_lawful};

use crate::Metric;
use crate::ranges::{LEVELS, is_level};

#[derive(Clone, Copy)]
pub struct SquaredEuclidean;

impl Metric for SquaredEuclidean {
    ghost model = { λ _. squared_euclidean };

    ghost lawful = { λ _. squared_lawful };

    fn straight(&self, level: u32) -> u32 {
        if is_level(level) { 2 * level - 1 } else { 0 }
    }

    fn diagonal(&self, level: u32) -> u32 {
        if is_level(level) { 4 * level - 2 } else { 0 }
    }

    fn far(&self, columns: i32, rows: i32) -> u32 {
        let x = columns.unsigned_abs();
        let y = rows.unsigned_abs();
        if x < LEVELS && y < LEVELS {
            x * x + y * y
        } else {
            0
        }
    }

    fn is_steady(&self) -> bool {
        false
    }

    fn splits(&self) -> bool {
        true
    }
}
