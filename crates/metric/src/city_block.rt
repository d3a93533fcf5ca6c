ghost use Rattle.metric.specs.Metrics.{city_block};
ghost use Rattle.metric.specs.Steady.{city_block_lawful, city_block_by_weights};

use crate::steady::Steady;

#[derive(Clone, Copy)]
pub struct CityBlock;

impl Steady for CityBlock {
    ghost STRAIGHT = { 1 };

    ghost DIAGONAL = { 2 };

    const STRAIGHT: u32 = 1;

    const DIAGONAL: u32 = 2;

    ghost numbers = { city_block };

    ghost from_weights = { city_block_by_weights };

    ghost keeps = { city_block_lawful };
}
