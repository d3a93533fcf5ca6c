// A sheet of pixels: its size, its places, the keys that its pixels hold, and how calls refuse.
#![tactic(auto)]

pub mod direction;
pub mod key;
pub mod order;
pub mod refusal;
pub mod size;
#[cfg(test)]
mod tests;
