ghost use Rattle.std.specs.Prelude.{◌≡◌};
ghost use Rattle.words.specs.Values.{values_in};

use crate::metric_name::MetricName;
use crate::word::three_words;

// The values of a run list: the sides of its sheet, which may be any numbers yet, and its metric.
#[derive(Clone, Copy, PartialEq, Eq, Debug)]
pub struct Values {
    pub width: usize,
    pub height: usize,
    pub metric: MetricName,
}

// The values of a line, if it has them.
pub fn values_in(line: &[u8]) -> Option<Values>
    ensures { result ≡ values_in line.now }
{
    let words = three_words(line)?;
    let width = words.first.number()?;
    let height = words.second.number()?;
    let metric = words.third.metric()?;
    Some(Values {
        width,
        height,
        metric,
    })
}
