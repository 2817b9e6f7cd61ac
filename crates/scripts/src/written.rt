// Costs as words.
ghost use Rattle.std.specs.Prelude.{◌≡◌, ℕ, List, IfOk, string_bytes, Option};

use costs::Cost;
use std::alloc::{AllocError, Global};

pub trait Written: Cost {
    // The cost that a word spells.
    ghost spelled: { List ℕ → Option Self };

    // What is printed of a cost.
    ghost printed: { Self → List ℕ };

    fn read(word: &[u8]) -> Option<Self>
        ensures { result ≡ spelled word.now };

    fn show(self, heap: Global) -> Result<String, AllocError>
        ensures { IfOk result (λ s. string_bytes s ≡ printed self) };
}
