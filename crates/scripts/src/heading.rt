// The three heading lines.
use crate::flaw::Flaw;
use crate::lines::Line;
use crate::numbers::{end, number, wanted, word};
use crate::script::{Areas, Kind, SourceName};
use crate::written::Written;
use std::alloc::Global;
use words::reader::Reader;

// costs sum|worst|ranked
pub(crate) fn kind_line(line: &mut Line) -> Result<Kind, Flaw> {
    let kind = match (line.name, word(&mut line.rest)) {
        (b"costs", Some(b"sum")) => Kind::Sum,
        (b"costs", Some(b"worst")) => Kind::Worst,
        (b"costs", Some(b"ranked")) => Kind::Ranked,
        _ => return Err(Flaw::Costs),
    };
    end(&mut line.rest)?;
    Ok(kind)
}

// source paid | source first-choice | source mini-bucket W
pub(crate) fn source_line(line: &mut Line) -> Result<SourceName, Flaw> {
    let source = match (line.name, word(&mut line.rest)) {
        (b"source", Some(b"paid")) => SourceName::Paid,
        (b"source", Some(b"first-choice")) => SourceName::FirstChoice,
        (b"source", Some(b"mini-bucket")) => {
            SourceName::MiniBucket(number(wanted(&mut line.rest)?)?)
        }
        _ => return Err(Flaw::Source),
    };
    end(&mut line.rest)?;
    Ok(source)
}

// The cost that the next word spells.
pub(crate) fn cost<C: Written>(words: &mut Reader) -> Result<C, Flaw> {
    C::read(wanted(words)?).ok_or(Flaw::Cost)
}

// areas LENGTH... [of COST]
pub(crate) fn areas_line<C: Written>(heap: Global, line: &mut Line) -> Result<Areas<C>, Flaw> {
    if line.name != b"areas".as_slice() {
        return Err(Flaw::Areas);
    }
    let areas: Areas<C> = lent(heap, &mut line.rest)?;
    if areas.lengths.is_empty() {
        return Err(Flaw::Areas);
    }
    Ok(areas)
}

// LENGTH... [of COST]
fn lent<C: Written>(heap: Global, words: &mut Reader) -> Result<Areas<C>, Flaw> {
    let mut lengths = Vec::new(heap);
    while let Some(next) = word(words) {
        if next == b"of".as_slice() {
            let content = cost(words)?;
            end(words)?;
            return Ok(Areas { lengths, content });
        }
        lengths.push(number(next)?)?;
    }
    Ok(Areas {
        lengths,
        content: C::neutral(),
    })
}
