// The lines of a script that have words.
ghost use Rattle.std.specs.Prelude.{◌≡◌};

use crate::flaw::{Flaw, Mistake};
use crate::numbers::word;
use words::reader::Reader;

// A line: its number from 1, its first word, and the words behind it.
#[derive(Drop)]
pub(crate) struct Line<'a> {
    pub number: usize,
    pub name: &'a [u8],
    pub rest: Reader<'a>,
}

impl Line<'_> {
    // A flaw in this line.
    pub(crate) fn mistake(&self, flaw: Flaw) -> Mistake
        ensures { (result.line ≡ self.now.number) × (result.flaw ≡ flaw) }
    {
        Mistake {
            line: self.number,
            flaw,
        }
    }
}

// A line without its comment.
fn bare(line: &[u8]) -> &[u8] {
    match line.iter().position(|byte| *byte == b'#') {
        Some(end) => &line[..end],
        None => line,
    }
}

// A line of a text by its index, if it has words.
// An empty line has no words, and none is looked for in it.
pub(crate) fn line_at<'a>((index, text): (usize, &'a [u8])) -> Option<Line<'a>> {
    if text.is_empty() {
        return None;
    }
    let mut rest = Reader::new(bare(text));
    let name = word(&mut rest)?;
    Some(Line {
        number: index.saturating_add(1),
        name,
        rest,
    })
}
