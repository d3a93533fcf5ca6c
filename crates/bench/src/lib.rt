// A bench over a sheet, open or settled by turns, and the law of all its runs.
#![tactic(auto)]

ghost use Rattle.bench.specs.Laws.{RunLaw};
ghost use Rattle.bench.specs.Examples.{WorkedRings};

mod answer;
mod held;
mod methods;
#[cfg(test)]
mod tests;

pub use held::{Answer, Bench, Call, State};

// The law of runs. On a newly opened bench let any calls be made, in any order, refused ones included. Then nothing is refused but by
// the table; every reading and every peak is true of the present picture by the latest settling's metric; benches settled by one
// metric over the same air give equal readings and equal peaks; and every count is its order's own, within its bound.
pub fn run_law()
    ensures { RunLaw }
{}

// The worked rings hold.
pub fn worked_rings()
    ensures { WorkedRings }
{
    transform::worked_examples();
}
