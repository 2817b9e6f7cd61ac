// Runs of blanks and of other bytes.
ghost use Rattle.std.specs.Prelude.{◌≡◌, ◌≤◌, length};
ghost use Rattle.words.specs.Words.{blank};
ghost use Rattle.words.specs.Runs.{blanks, run};

// Whether a byte parts words: tab, line feed, carriage return and space.
fn is_blank(byte: u8) -> bool
    ensures { result ≡ blank byte }
{
    matches!(byte, 9 | 10 | 13 | 32)
}

// How many blanks a text begins with.
// Not one function of a test: both are the library's count of what passes one, and a test passed in would need a law in the clause.
pub(crate) fn blanks(text: &[u8]) -> usize
    ensures count { result ≡ blanks text.now }
    ensures within { result ≤ length text.now }
{
    text.iter().take_while(|byte| is_blank(**byte)).count()
}

// How many bytes other than blanks it begins with.
pub(crate) fn run(text: &[u8]) -> usize
    ensures count { result ≡ run text.now }
    ensures within { result ≤ length text.now }
{
    text.iter().take_while(|byte| !is_blank(**byte)).count()
}
