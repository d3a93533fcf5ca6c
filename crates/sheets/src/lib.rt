// Sheets: an open sheet has no reading, and a settled sheet takes no strike.
#![tactic(auto)]

pub mod calls;
mod held;
mod open_sheet;
mod settled_sheet;
#[cfg(test)]
mod tests;

pub use held::{OpenSheet, SettledSheet};
