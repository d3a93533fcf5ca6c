// Writes the answer to a run list.
#![tactic(auto)]

ghost use Rattle.std.specs.Prelude.{◌≡◌, IfOk, Some, string_bytes};
ghost use Rattle.writer.specs.Answers.{answer_words, text_of};

use answer::{Answer, Figures};
use std::alloc::{AllocError, Global};
use std::fmt;

pub mod answer;
#[cfg(test)]
mod tests;

impl fmt::Display for Answer {
    ghost output = { λ answer. Some (answer_words answer) };

    fn fmt<W: fmt::Write>(&self, f: &mut fmt::Formatter<W>) -> fmt::Result {
        let line = self.line;
        match self.outcome {
            Ok(Some(figures)) => {
                let Figures {
                    distance,
                    row,
                    column,
                } = figures;
                write!(f, "{line},0,{distance},{row},{column}")
            }
            Ok(None) => write!(f, "{line},0,-,-,-"),
            Err(refusal) => {
                let number = u32::from(refusal);
                write!(f, "{line},{number},0,0,0")
            }
        }
    }
}

// Answers, printed as the text that a host is given: a line of names, and a line for each.
#[derive(Clone, Copy)]
pub struct Answers<'a>(pub &'a [Answer]);

impl fmt::Display for Answers<'_> {
    ghost output = { λ answers. Some (text_of answers.0.now) };

    fn fmt<W: fmt::Write>(&self, f: &mut fmt::Formatter<W>) -> fmt::Result {
        writeln!(f, "line,answer,distance,row,column")?;
        for answer in self.0 {
            writeln!(f, "{answer}")?;
        }
        Ok(())
    }
}

// The text of some answers.
pub fn answer_text(heap: Global, answers: &[Answer]) -> Result<String, AllocError>
    ensures { IfOk result (λ text. string_bytes text ≡ text_of answers.now) }
{
    Answers(answers).to_string(heap)
}
