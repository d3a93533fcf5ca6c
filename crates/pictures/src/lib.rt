// Pictures to measure, and a search through all their air that shares no code with what it is to test.
#![tactic(auto)]

pub mod formula;
pub mod picture;
pub mod random;
pub mod readings;
mod ring;
#[cfg(test)]
mod tests;
