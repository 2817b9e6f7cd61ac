// The cost of one full setting of a job, function by function.
ghost use Rattle.std.specs.Prelude.{◌≡◌, ℕ, ◌++◌, length, IfOk, OnOk, Some};
ghost use Rattle.problems.specs.Outlines.{outline};
ghost use Rattle.variables.specs.Assignments.{of};
ghost use Rattle.variables.specs.Records.{sizes_of, values_of};
ghost use Rattle.problems.specs.Records.{placed_of};
ghost use Rattle.pages.specs.declared.pricing.Failure.TheVariants.{Memory, Refused};
ghost use Rattle.pages.specs.Records.{record_line, record_lines, record_page, PricedAt};
ghost use Rattle.wcsp.specs.Loads.{loading};
ghost use Rattle.pages.specs.Pages.{Priced, Given, failure};

use crate::lines::Page;
use jobs::job::Job;
pub use jobs::job::NoFloors;
use problems::functions::FunctionRecord;
use problems::shape::{MOST_CELLS, Shape};
use std::alloc::{AllocError, Global};
use variables::setting::{Misfit, Setting};
use variables::sizes::Sizes;
use wcsp::load::name;
use words::fault::Fault;

// How many cells a job is priced in.
pub const CELLS: usize = MOST_CELLS;

// Why there is no price.
#[derive(Debug, Drop)]
pub enum Failure {
    Memory,
    // The text is refused.
    Refused(Fault),
    // So many values were wanted.
    Values(usize),
    // This variable has no such value.
    Value(usize),
}

impl From<AllocError> for Failure {
    ghost from_gives = { λ _ r. r ≡ Memory };

    fn from(_e: AllocError) -> Failure {
        Failure::Memory
    }
}

impl From<Fault> for Failure {
    ghost from_gives = { λ f r. r ≡ Refused f };

    fn from(fault: Fault) -> Failure {
        Failure::Refused(fault)
    }
}

// The line of function k.
fn record_line(
    page: &mut Page,
    k: usize,
    function: &FunctionRecord,
    sizes: &Sizes,
    setting: &Setting,
    area: &[u32],
) -> Result<(), AllocError>
    ensures { OnOk result (page.new.bytes.items ≡ page.old.bytes.items
        ++ record_line (sizes_of sizes.now) area.now (of (values_of setting.now)) k (Some (placed_of function.now))) }
{
    let cost = function.cost(sizes, setting, area);
    page.function_line(k, function.scope().variables(), cost)
}

// A line for each function.
fn record_lines(
    page: &mut Page,
    shape: &Shape,
    setting: &Setting,
    area: &[u32],
) -> Result<(), AllocError>
    ensures { OnOk result (page.new.bytes.items ≡ page.old.bytes.items
        ++ record_lines (outline shape.now).sizes area.now (of (values_of setting.now)) 0 (outline shape.now).functions) }
{
    for (k, function) in shape.functions().iter().enumerate() {
        record_line(page, k, function, shape.domains(), setting, area)?;
    }
    Ok(())
}

// What is wrong with values that are no full setting of so many variables.
fn failure_of(misfit: Misfit, wanted: usize) -> Failure
    ensures { result ≡ failure misfit wanted }
{
    match misfit {
        Misfit::Length => Failure::Values(wanted),
        Misfit::Value(v) => Failure::Value(v),
    }
}

// The setting that the values give a job's variables.
fn setting_of(values: &[u8], shape: &Shape) -> Result<Setting, Failure>
    ensures { Given (outline shape.now).sizes values.now result }
{
    let sizes = shape.sizes();
    Setting::full(values, &sizes).map_err(|misfit| failure_of(misfit, sizes.len()))
}

// The page of a job, of its functions' costs at a setting, and of the setting's cost.
fn page_of(
    heap: Global,
    name: &[u8],
    shape: &Shape,
    setting: &Setting,
    area: &[u32],
    upper: u32,
) -> Result<Vec<u8>, AllocError>
    ensures { IfOk result (λ page. (cost : ℕ) × PricedAt (outline shape.now) area.now (values_of setting.now) cost
        × (page.items ≡ record_page name.now (outline shape.now) area.now (of (values_of setting.now)) cost upper)) }
{
    let cost = shape.cost(setting, area);
    let mut page = Page {
        bytes: Vec::new(heap),
    };
    page.job_line(name, shape, area.len())?;
    record_lines(&mut page, shape, setting, area)?;
    page.verdict_line(cost, upper)?;
    Ok(page.bytes)
}

// The page of a setting's cost in the job that a text describes, with its tables in a lent area.
fn priced_in(area: &mut [u32], heap: Global, text: &[u8], values: &[u8]) -> Result<Vec<u8>, Failure>
    ensures { Priced (loading text.now (length area.old)) (length area.old) values.now result }
{
    let mut job = Job::new(NoFloors);
    let upper = job.load(text, area)?;
    let shape = job.shape();
    let setting = setting_of(values, &shape)?;
    let title = name(text).unwrap_or(b"");
    let page = page_of(heap, title, &shape, &setting, area, upper)?;
    Ok(page)
}

// The page of a setting's cost in the job that a text describes.
pub fn cost_page(heap: Global, text: &[u8], values: &[u8]) -> Result<Vec<u8>, Failure>
    ensures { Priced (loading text.now 16384) 16384 values.now result }
{
    let mut area = vec![in heap; 0u32; CELLS]?;
    priced_in(area.as_mut_slice(), heap, text, values)
}
