ghost use Rattle.std.specs.Prelude.{◌≡◌};
ghost use Rattle.words.specs.Words.{metric_of};

// The metrics by the names that a run list has for them.
#[derive(Clone, Copy, PartialEq, Eq, Debug)]
pub enum MetricName {
    City,
    Chess,
    Chamfer,
    Euclid,
}

// The metric of a name. No `TryFrom`: its error would say no more than `None`.
pub fn metric_of(name: &[u8]) -> Option<MetricName>
    ensures { result ≡ metric_of name.now }
{
    match name {
        b"city" => Some(MetricName::City),
        b"chess" => Some(MetricName::Chess),
        b"chamfer" => Some(MetricName::Chamfer),
        b"euclid" => Some(MetricName::Euclid),
        _ => None,
    }
}
