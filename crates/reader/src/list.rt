ghost use Rattle.std.specs.Prelude.{◌≡◌, true, false, MatchResult};
ghost use Rattle.sheet.specs.declared.refusal.Refusal.TheVariants.{BadSize};
ghost use Rattle.reader.specs.Lists.{fault, faulty, bad_size};

use crate::calls::Calls;
use sheet::refusal::Refusal;
use sheet::size::Size;
use words::call::Call;
use words::metric_name::MetricName;
use words::values::Values;

// The most pixels of a run list's sheet.
const PIXELS: usize = 2048;

// A call with the number of its line.
#[derive(Clone, Copy, PartialEq, Eq, Debug)]
pub struct Entry {
    pub line: usize,
    pub call: Call,
}

// A run list: the size of its sheet, its metric and its calls, which stay the part of the text that they were.
#[derive(Clone, Copy)]
pub struct RunList<'a> {
    pub size: Size,
    pub metric: MetricName,
    pub calls: Calls<'a>,
}

// Why a text is no run list, and at which line.
#[derive(Clone, Copy, PartialEq, Eq, Debug)]
pub struct Fault {
    pub refusal: Refusal,
    pub line: usize,
}

impl Fault {
    // The fault of a line that is not as the format has it.
    pub(crate) fn of_line(line: usize) -> Fault
        ensures { result ≡ faulty line }
    {
        let refusal = match line {
            1 | 3 => Refusal::BadNames,
            _ => Refusal::BadLine,
        };
        Fault { refusal, line }
    }
}

// The size of the sheet, where it is one that a run list may have.
pub fn size_of(values: Values) -> Result<Size, Fault>
    ensures { MatchResult result
        (λ s. (bad_size values ≡ false) × (s.width ≡ values.width) × (s.height ≡ values.height))
        (λ f. (bad_size values ≡ true) × (f ≡ fault BadSize 2)) }
{
    match Size::new(values.width, values.height) {
        Ok(size) if size.pixels() <= PIXELS => Ok(size),
        _ => Err(Fault {
            refusal: Refusal::BadSize,
            line: 2,
        }),
    }
}
