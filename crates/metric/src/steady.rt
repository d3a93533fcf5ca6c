// Metrics whose weights are the same at every level: far takes a diagonal step for each of the lesser offset, and a straight one
// for each of the rest.
ghost use Rattle.std.specs.Prelude.{◌≡◌, ℕ};
ghost use Rattle.metric.specs.Model.{Model};
ghost use Rattle.metric.specs.Laws.{Lawful};
ghost use Rattle.metric.specs.Metrics.{ByWeights};

use crate::Metric;
use crate::ranges::{at_every_level, by_greater_and_lesser};

pub trait Steady {
    ghost STRAIGHT: { ℕ };

    ghost DIAGONAL: { ℕ };

    // The weight of a straight step, and of a diagonal one.
    const STRAIGHT: u32;

    const DIAGONAL: u32;

    // The metric as functions.
    ghost numbers: { Model };

    // Whoever writes one shows that these functions come from the weights, and keep the laws.
    ghost from_weights: { ByWeights STRAIGHT DIAGONAL numbers };

    ghost keeps: { Lawful numbers };
}

impl<S: Steady> Metric for S {
    ghost model = { λ _. S.numbers };

    ghost lawful = { λ _. S.keeps };

    fn straight(&self, level: u32) -> u32 {
        at_every_level(level, S::STRAIGHT)
    }

    fn diagonal(&self, level: u32) -> u32 {
        at_every_level(level, S::DIAGONAL)
    }

    fn far(&self, columns: i32, rows: i32) -> u32 {
        by_greater_and_lesser(columns, rows, S::STRAIGHT, S::DIAGONAL - S::STRAIGHT)
    }

    fn is_steady(&self) -> bool {
        true
    }

    fn splits(&self) -> bool {
        S::DIAGONAL == 2 * S::STRAIGHT
    }
}
