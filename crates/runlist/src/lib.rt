// Answers run lists: from a text of calls to the text of their answers.
#![tactic(auto)]

ghost use Rattle.std.specs.Prelude.{◌≡◌, ◌↔◌, true, List, IfOk, Err, IsErrOf, string_bytes};
ghost use Rattle.bench.specs.Calls.{request_of};
ghost use Rattle.reader.specs.Left.{left};
ghost use Rattle.reader.specs.Lists.{list_of};
ghost use Rattle.reader.specs.declared.list.Fault.{Fault};
ghost use Rattle.writer.specs.Answers.{text_of};
ghost use Rattle.writer.specs.declared.answer.Answer.{Answer as Line};
ghost use Rattle.runlist.specs.declared.error.Error.{Error};
ghost use Rattle.runlist.specs.Replies.{accepts};
ghost use Rattle.runlist.specs.Answering.{figures_of, request_in, model_of, Ran, AnswersTo};

use bench::{Answer as Given, Bench};
pub use error::Error;
use front::queue_front::QueueFront;
use metric::Metric;
use metric::chamfer::Chamfer;
use metric::chessboard::Chessboard;
use metric::city_block::CityBlock;
use metric::squared_euclidean::SquaredEuclidean;
use reader::calls::Calls;
use reader::check;
use reader::list::RunList;
use sheet::size::Size;
use std::alloc::{AllocError, Global};
use words::call::Call;
use words::metric_name::MetricName;
use writer::answer::{Answer, Figures};
use writer::answer_text;

mod error;
#[cfg(test)]
mod tests;

// The figures of what a call gave.
fn figures(size: Size, given: Given) -> Option<Figures>
    ensures { result ≡ figures_of size.width given }
{
    match given {
        Given::Done => Some(Figures {
            distance: 0,
            row: 0,
            column: 0,
        }),
        Given::Counted(distance) => Some(Figures {
            distance,
            row: 0,
            column: 0,
        }),
        Given::Reading(found) | Given::Highest(found) => found.map(|(distance, place)| {
            let place = place as usize;
            // no `Size::pixel`, which refuses a place off the sheet
            Figures {
                distance,
                row: place / size.width,
                column: place % size.width,
            }
        }),
    }
}

// What a call of a list asks of a bench. No `From`: both types are of other crates, and the metric is a third thing.
fn asked<M: Metric>(metric: &M, call: Call) -> bench::Call<'_, M>
    ensures { request_of M.model result ≡ request_in (M.model metric.now) call }
{
    match call {
        Call::Strike { row, column } => bench::Call::Strike { row, column },
        Call::Restore { row, column } => bench::Call::Restore { row, column },
        Call::Settle(order) => bench::Call::Settle { metric, order },
        Call::Read { row, column } => bench::Call::Read { row, column },
        Call::Peak => bench::Call::Peak,
        Call::Reopen => bench::Call::Reopen,
    }
}

// Opens a bench over carbon alone, in memory that is asked for only now, and makes the calls of a list in turn; gives their answers.
fn run_by<M: Metric>(
    heap: Global,
    size: Size,
    metric: &M,
    list: Calls<'_>,
) -> Result<Vec<Answer>, AllocError>
    ensures { IfOk result (λ answers. Ran size.width size.height (M.model metric.now) (left list.entry) answers.items) }
{
    let pixels = size.pixels();
    let mut picture = vec![in heap; 1; pixels]?;
    let mut keys = vec![in heap; 0; pixels]?;
    let mut spare = vec![in heap; 0; pixels]?;
    let mut ring = vec![in heap; 0; pixels]?;
    let mut flags = vec![in heap; 0; pixels]?;
    let mut front = QueueFront::over(pixels, ring.as_mut_slice(), flags.as_mut_slice());
    let picture = picture.as_mut_slice();
    let keys = keys.as_mut_slice();
    let spare = spare.as_mut_slice();
    let mut bench = Bench::open(size.width, size.height, picture, keys).unwrap();
    let mut answers = Vec::new(heap);
    for entry in list {
        let call = asked(metric, entry.call);
        let gave = bench.answer(call, picture, keys, spare, &mut front);
        answers.push(Answer {
            line: entry.line,
            outcome: gave.map(|given| figures(size, given)),
        })?;
    }
    Ok(answers)
}

// Runs a list by its metric.
fn run(heap: Global, list: RunList<'_>) -> Result<Vec<Answer>, AllocError>
    ensures { IfOk result (λ answers. Ran list.entry.size.width list.entry.size.height (model_of list.entry.metric) (left list.entry.calls) answers.items) }
{
    let RunList {
        size,
        metric,
        calls,
    } = list;
    // a match: the name comes from a text, and each metric is a type of its own
    match metric {
        MetricName::City => run_by(heap, size, &CityBlock, calls),
        MetricName::Chess => run_by(heap, size, &Chessboard, calls),
        MetricName::Chamfer => run_by(heap, size, &Chamfer, calls),
        MetricName::Euclid => run_by(heap, size, &SquaredEuclidean, calls),
    }
}

// The answer to a text: that of its run, or the fault for which it is refused. Only an accepted list asks for memory.
pub fn answer(heap: Global, text: &[u8]) -> Result<String, Error>
    ensures runs { IfOk result (λ reply. (answers : List Line) × AnswersTo (list_of text.now) answers × (string_bytes reply ≡ text_of answers)) }
    ensures refuses { (due : Fault) → IsErrOf result (Error.Refused due) ↔ (list_of text.now ≡ Err due) }
    ensures memory { IsErrOf result Error.OutOfMemory → accepts text.now ≡ true }
{
    let list = check(text)?;
    let answers = run(heap, list)?;
    Ok(answer_text(heap, answers.as_slice())?)
}
