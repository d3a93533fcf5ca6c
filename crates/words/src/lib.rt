// What the lines of a run list say, each by itself: the words of a line, its call, or its values.
#![tactic(auto)]

ghost use Rattle.words.specs.Words.{NumbersReadBack};

pub mod call;
pub mod metric_name;
pub mod parts;
pub mod values;
mod word;

// A number is read as it is written.
pub fn numbers_read_back()
    ensures { NumbersReadBack }
{}
