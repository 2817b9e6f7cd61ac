// What a report's buffer holds after it.
ghost use Rattle.std.specs.Prelude.{◌≡◌, take};
ghost use Rattle.replay.specs.Shows.{shown_of};

use crate::calls::Shown;
use variables::sizes::MOST_VARIABLES;

impl Shown {
    // No report writes more values than there are variables.
    pub(crate) fn of(buffer: &[u8]) -> Shown
        ensures { shown_of result ≡ take 32 buffer.now }
    {
        let len = buffer.len().min(MOST_VARIABLES);
        let mut values = [0; 32];
        values[0..len].copy_from_slice(&buffer[0..len]);
        Shown { values, len }
    }

    // The values by variable number.
    pub fn values(&self) -> &[u8]
        ensures { result.now ≡ shown_of self.now }
    {
        let len = self.len;
        &self.values[0..len]
    }
}
