// The types of the sheets.
use sheet::size::Size;

// A sheet whose picture may be struck and restored, and which has no reading. Neither copied nor let go: settling uses it up, and
// `close` ends it.
pub struct OpenSheet {
    pub(crate) size: Size,
}

// A sheet whose keys are settled, and which takes no strike. Neither copied nor let go: reopening uses it up, and `close` ends it.
pub struct SettledSheet {
    pub(crate) size: Size,
}
