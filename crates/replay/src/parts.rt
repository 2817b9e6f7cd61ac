// Where the parts lie that calls bring.
ghost use Rattle.std.specs.Prelude.{◌≡◌, ◌≤◌};
ghost use Rattle.replay.specs.Parts.{from, to};

use crate::calls::Part;
use std::ops::Range;

impl Part {
    // The part's places among n; a part that passes their end is empty.
    pub(crate) fn range(self, n: usize) -> Range<usize>
        ensures { (result.start ≡ from self n) × (result.end ≡ to self n) × (result.start ≤ result.end) × (result.end ≤ n) }
    {
        if self.start <= n && self.len <= n - self.start {
            self.start..self.start + self.len
        } else {
            0..0
        }
    }
}
