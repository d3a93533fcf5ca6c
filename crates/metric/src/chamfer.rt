// The chamfer with weights 3 and 4.
ghost use Rattle.metric.specs.Metrics.{chamfer};
ghost use Rattle.metric.specs.Steady.{chamfer_lawful, chamfer_by_weights};

use crate::steady::Steady;

#[derive(Clone, Copy)]
pub struct Chamfer;

impl Steady for Chamfer {
    ghost STRAIGHT = { 3 };

    ghost DIAGONAL = { 4 };

    const STRAIGHT: u32 = 3;

    const DIAGONAL: u32 = 4;

    ghost numbers = { chamfer };

    ghost from_weights = { chamfer_by_weights };

    ghost keeps = { chamfer_lawful };
}
