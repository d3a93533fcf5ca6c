ghost use Rattle.std.specs.Prelude.{◌≡◌, ◌*◌};
ghost use Rattle.sheet.specs.Refusals.{Answers};
ghost use Rattle.sheets.specs.Calls.{pixel_refusal, memory_refusal, blanked, reading_at, peak_of};
ghost use Rattle.sheets.specs.Sheets.{ReopensSheet};

use crate::calls;
use crate::held::{OpenSheet, SettledSheet};
use sheet::refusal::Refusal;

impl SettledSheet {
    // The distance from a pixel to its nearest air with the place of that air; nothing where its key is blank.
    pub fn read(
        &self,
        row: usize,
        column: usize,
        keys: &[u64],
    ) -> Result<Option<(u64, u64)>, Refusal>
        ensures { Answers
            (pixel_refusal self.now.size keys.now row column)
            (Unit {0})
            (λ reading. reading ≡ reading_at self.now.size keys.now row column)
            result }
    {
        calls::read(self.size, row, column, keys)
    }

    // The greatest distance with the place of the first pixel that has it; nothing where all keys are blank.
    pub fn peak(&self, keys: &[u64]) -> Result<Option<(u64, u64)>, Refusal>
        ensures { Answers
            (memory_refusal self.now.size keys.now)
            (Unit {0})
            (λ peak. peak ≡ peak_of (self.now.size.width * self.now.size.height) keys.now)
            result }
    {
        calls::peak(self.size, keys)
    }

    // Makes the first n keys blank. Uses the sheet up: gives an open one, or the same sheet again with the refusal.
    pub fn reopen(self, keys: &mut [u64]) -> Result<OpenSheet, (SettledSheet, Refusal)>
        ensures { ReopensSheet self
            (memory_refusal self.size keys.old)
            (keys.new ≡ keys.old)
            (keys.new ≡ blanked self.size keys.old)
            result }
    {
        match calls::clear(self.size, keys) {
            Ok(()) => {
                let SettledSheet { size } = self;
                Ok(OpenSheet { size })
            }
            Err(refusal) => Err((self, refusal)),
        }
    }

    // Ends the sheet.
    pub fn close(self) {
        let SettledSheet { size: _ } = self;
    }
}
