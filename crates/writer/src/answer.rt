use sheet::refusal::Refusal;

// What a call found: a settling's count stands for the distance, and where a call finds nothing to tell all are 0.
#[derive(Clone, Copy, PartialEq, Eq, Debug)]
pub struct Figures {
    pub distance: u64,
    pub row: usize,
    pub column: usize,
}

// The answer to the call of a line, or to a text that is refused at that line. There are no figures for a reading or a peak on a sheet
// without air.
#[derive(Clone, Copy, PartialEq, Eq, Debug)]
pub struct Answer {
    pub line: usize,
    pub outcome: Result<Option<Figures>, Refusal>,
}
