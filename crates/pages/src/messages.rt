// The messages and the bottom of a mini-bucket source.
ghost use Rattle.std.specs.Prelude.{◌≡◌, ◌≤◌, ◌&&◌, ◌++◌, length, OnOk, Some, nat_le};
ghost use Rattle.problems.specs.Outlines.{outline};
ghost use Rattle.problems.specs.Records.{placed_of};
ghost use Rattle.variables.specs.Records.{sizes_of};
ghost use Rattle.floors.specs.Rules.{frame};
ghost use Rattle.buckets.specs.Sources.{messages};
ghost use Rattle.pages.specs.declared.messages.Unmade.TheVariants.{Memory, Refused, Unprepared};
ghost use Rattle.pages.specs.Messages.{kept_line, kept_lines};

use crate::asked::{Along, Asked};
use crate::lines::Page;
use buckets::mini_bucket::MiniBucket;
use floors::source::FloorSource;
use orders::min_fill::min_fill;
use orders::natural::natural;
use problems::records::MessageRecord;
use problems::shape::{MOST_CELLS, Shape};
use std::alloc::{AllocError, Global};
use variables::prefix::Prefix;
use variables::refusal::Refusal;
use variables::sizes::Sizes;
use wcsp::load::{load, name};
use words::fault::Fault;

// Why there is no page of messages.
// Not one enum with `Failure`: of what one page can fail by the other knows only half, and its `match` would be longer.
#[derive(Drop)]
pub enum Unmade {
    Memory,
    // The text is refused.
    Refused(Fault),
    // The source would not be prepared.
    Unprepared(Refusal),
}

impl From<AllocError> for Unmade {
    ghost from_gives = { λ _ r. r ≡ Memory };

    fn from(_e: AllocError) -> Unmade {
        Unmade::Memory
    }
}

impl From<Fault> for Unmade {
    ghost from_gives = { λ f r. r ≡ Refused f };

    fn from(fault: Fault) -> Unmade {
        Unmade::Refused(fault)
    }
}

impl From<Refusal> for Unmade {
    ghost from_gives = { λ why r. r ≡ Unprepared why };

    fn from(why: Refusal) -> Unmade {
        Unmade::Unprepared(why)
    }
}

// The order that is asked for.
fn order_of(heap: Global, along: &Along, shape: &Shape) -> Result<Vec<u8>, AllocError> {
    match along {
        Along::Natural => natural(heap, shape),
        Along::MinFill => min_fill(heap, shape),
        Along::Listed(variables) => variables.clone(),
    }
}

// Whether a source suits a job, and its cells are at most so many.
fn fits<S: FloorSource<u32>>(source: &S, shape: &Shape, free: usize) -> bool
    ensures { result ≡ (S.FloorSource.rules.suits source.now (frame (outline shape.now)) && nat_le (S.FloorSource.rules.room source.now (frame (outline shape.now))) free) }
{
    source.suits(shape) && source.room(shape) <= free
}

// The greatest width that fits, if there is one.
fn widest(shape: &Shape, free: usize) -> Option<u8> {
    (1..=6u8)
        .rev()
        .find(|width| fits(&MiniBucket::new(*width), shape, free))
}

// The width that is asked for, or the greatest that fits.
fn width_of(asked: Option<u8>, shape: &Shape, free: usize) -> Result<u8, Refusal> {
    asked.or_else(|| widest(shape, free)).ok_or(Refusal::Room)
}

// Has the source fill its cells behind the tables, if it suits and they are there; answers how many.
fn filled<S: FloorSource<u32>>(
    source: &mut S,
    shape: &Shape,
    area: &mut [u32],
) -> Result<usize, Refusal> {
    if !source.suits(shape) {
        return Err(Refusal::Source);
    }
    let at = shape.used();
    let room = source.room(shape);
    if area.len() > MOST_CELLS || at > area.len() || room > area.len() - at {
        return Err(Refusal::Room);
    }
    source.fill(shape, area, at);
    Ok(room)
}

// The line of message k.
fn kept_line(
    page: &mut Page,
    k: usize,
    message: &MessageRecord,
    sizes: &Sizes,
    area: &[u32],
) -> Result<(), AllocError>
    ensures { OnOk result (page.new.bytes.items ≡ page.old.bytes.items
        ++ kept_line (sizes_of sizes.now) area.now k (Some (placed_of message.now))) }
{
    let scope = message.scope();
    let start = message.start().min(area.len());
    let end = start
        .saturating_add(scope.table_cells(sizes))
        .min(area.len());
    page.message_line(k, scope.variables(), message.origin(), &area[start..end])
}

// A line for each message.
fn kept_lines(
    page: &mut Page,
    source: &MiniBucket,
    sizes: &Sizes,
    area: &[u32],
) -> Result<(), AllocError>
    ensures { OnOk result (page.new.bytes.items ≡ page.old.bytes.items
        ++ kept_lines (sizes_of sizes.now) area.now 0 (messages source.now)) }
{
    for (k, message) in source.messages().iter().enumerate() {
        kept_line(page, k, message, sizes, area)?;
    }
    Ok(())
}

// The source's page for a job that is put in order, in the area that holds its tables.
fn page_in(
    area: &mut [u32],
    heap: Global,
    title: &[u8],
    shape: &Shape,
    width: Option<u8>,
) -> Result<Vec<u8>, Unmade> {
    let free = area.len().saturating_sub(shape.used());
    let mut source = MiniBucket::new(width_of(width, shape, free)?);
    let room = filled(&mut source, shape, area)?;
    let mut page = Page {
        bytes: Vec::new(heap),
    };
    page.job_line(title, shape, area.len())?;
    page.order_line(shape.order().variables())?;
    page.bucket_line(source.width(), room)?;
    kept_lines(&mut page, &source, &shape.sizes(), area)?;
    page.bottom_line(source.floor(shape, &Prefix::empty(), area, shape.used()))?;
    Ok(page.bytes)
}

// The page of messages and bottom of the job that a text describes.
pub fn messages_page(heap: Global, text: &[u8], asked: &Asked) -> Result<Vec<u8>, Unmade> {
    let mut cells = vec![in heap; 0u32; asked.cells]?;
    let area = cells.as_mut_slice();
    let mut shape = load(text, area)?.shape;
    let order = order_of(heap, &asked.along, &shape)?;
    shape.arrange(order.as_slice())?;
    let title = name(text).unwrap_or(b"");
    page_in(area, heap, title, &shape, asked.width)
}
