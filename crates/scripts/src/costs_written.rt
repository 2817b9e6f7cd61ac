// How each of the three kinds of cost is written.
ghost use Rattle.std.specs.Prelude.{◌≡◌, decimal, ◌==◌, position};
ghost use Rattle.scripts.specs.Costs.{ranked_word, ranked_line, sum_word, worst_word};

use crate::written::Written;
use costs::Pair;
use std::alloc::{AllocError, Global};
use words::number::parsed;

impl Written for u32 {
    ghost spelled = { sum_word };

    ghost printed = { decimal };

    fn read(word: &[u8]) -> Option<u32> {
        parsed(word)
    }

    fn show(self, heap: Global) -> Result<String, AllocError> {
        self.to_string(heap)
    }
}

impl Written for u16 {
    ghost spelled = { worst_word };

    ghost printed = { decimal };

    fn read(word: &[u8]) -> Option<u16> {
        parsed(word).and_then(|number| u16::try_from(number).ok())
    }

    fn show(self, heap: Global) -> Result<String, AllocError> {
        self.to_string(heap)
    }
}

// The place of the first comma.
fn comma(word: &[u8]) -> Option<usize>
    ensures { result ≡ position (λ b. b == 44) word.now }
{
    word.iter().position(|byte| *byte == b',')
}

impl Written for Pair {
    ghost spelled = { ranked_word };

    ghost printed = { ranked_line };

    fn read(word: &[u8]) -> Option<Pair> {
        let at = comma(word)?;
        let first = u16::read(&word[..at])?;
        let second = u16::read(&word[at + 1..])?;
        Some(Pair { first, second })
    }

    fn show(self, heap: Global) -> Result<String, AllocError> {
        let Pair { first, second } = Pair::ranked(self.first, self.second);
        format!(in heap; "{first},{second}")
    }
}
