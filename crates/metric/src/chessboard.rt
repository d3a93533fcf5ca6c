ghost use Rattle.metric.specs.Metrics.{chessboard};
ghost use Rattle.metric.specs.Steady.{chessboard_lawful, chessboard_by_weights};

use crate::steady::Steady;

#[derive(Clone, Copy)]
pub struct Chessboard;

impl Steady for Chessboard {
    ghost STRAIGHT = { 1 };

    ghost DIAGONAL = { 1 };

    const STRAIGHT: u32 = 1;

    const DIAGONAL: u32 = 1;

    ghost numbers = { chessboard };

    ghost from_weights = { chessboard_by_weights };

    ghost keeps = { chessboard_lawful };
}
