// A whole text, read into an area.
ghost use Rattle.std.specs.Prelude.{◌≡◌, ◌≤◌, length};
ghost use Rattle.std.specs.Option.{option_map};
ghost use Rattle.wcsp.specs.declared.tables.Pass.TheVariants.{Checking};
ghost use Rattle.words.specs.Words.{words, name_of};
ghost use Rattle.words.specs.Readings.{Says};
ghost use Rattle.wcsp.specs.Layouts.{document};
ghost use Rattle.wcsp.specs.Loads.{loading, Outcome, Passed};

use crate::domains::sizes;
use crate::entry::entries;
use crate::heading::read_heading;
use crate::tables::Pass;
// How many cells an area has at most.
pub use problems::shape::MOST_CELLS;
use problems::shape::Shape;
use variables::refusal::Refusal;
use words::fault::{Fault, Flaw};
use words::reader::Reader;

// How many bytes a text has at most.
pub const MOST_BYTES: usize = 65_535;

// The job that a text describes, its tables in the area, and the upper bound that the text states.
#[derive(Clone, Copy)]
pub struct Loaded {
    pub shape: Shape,
    pub upper: u32,
}

// One pass over the whole text.
fn read(text: &[u8], area: &mut [u32], pass: Pass) -> Result<Loaded, Fault>
    requires some { 2 ≤ length area.old }
    requires small { length area.old ≤ 16384 }
    ensures checked { pass ≡ Checking → area.new ≡ area.old }
    ensures read { Says (document (length text.now) (length area.old) (words text.now)) result
        (λ l d. Passed pass l d area.old area.new) }
{
    let mut reader = Reader::new(text);
    let heading = read_heading(&mut reader)?;
    let sizes = sizes(&mut reader, heading.variables, heading.largest)?;
    let mut shape = Shape::sized(sizes);
    entries(&mut reader, heading.functions, &mut shape, area, pass)?;
    reader.end()?;
    Ok(Loaded {
        shape,
        upper: heading.upper,
    })
}

// Loads a text: all of it is checked before anything is written.
pub fn load(text: &[u8], area: &mut [u32]) -> Result<Loaded, Fault>
    ensures { Outcome (loading text.now (length area.old)) result area.old area.new }
{
    if text.len() > MOST_BYTES {
        return Err(Flaw::TextLength.at(0));
    }
    if area.len() < 2 || area.len() > MOST_CELLS {
        return Err(Refusal::Area.into());
    }
    read(text, area, Pass::Checking)?;
    read(text, area, Pass::Writing)
}

// The name that a text begins with, if it has a word.
pub fn name(text: &[u8]) -> Option<&[u8]>
    ensures { option_map (λ x. x.now) result ≡ name_of (words text.now) }
{
    let mut reader = Reader::new(text);
    reader.word().ok().map(|word| word.bytes)
}
