// Orders of work that bring a picture's keys to the settled image, in memory that the caller lends.
#![tactic(auto)]

ghost use Rattle.erosion.specs.Rounds.{OrdersAgree};

pub mod directional;
mod grid;
pub mod memory;
pub mod parallel;
mod phases;
pub mod raster;
pub mod start;
mod sweeps;
#[cfg(test)]
mod tests;
mod view;

// Every order leaves the same keys.
pub fn orders_agree()
    ensures { OrdersAgree }
{}
