// The options of a command, each at most once and in any order.
ghost use Rattle.std.specs.Prelude.{◌≡◌, ◌≤◌, Some};
ghost use Rattle.words.specs.Numbers.{number};
ghost use Rattle.commands.specs.Values.{Ranged};

use crate::stop::Stop;
use pages::asked::{Along, Asked};
use problems::shape::MOST_CELLS;
use std::alloc::Global;
use std::env::Args;
use words::number::parsed;

// What was given up to now.
#[derive(Default, Drop)]
struct Given {
    width: Option<u8>,
    along: Option<Along>,
    cells: Option<usize>,
}

// The number from 0 to 255 that a word stands for.
pub(crate) fn byte_of(word: &str) -> Option<u8>
    ensures { Ranged word.now 0 255 result }
{
    parsed(word.as_bytes()).and_then(|n| u8::try_from(n).ok())
}

// The number that a word stands for, if it is from `least` to `most`.
fn number_in(word: &str, least: u32, most: u32) -> Option<u32>
    ensures { Ranged word.now least most result }
{
    parsed(word.as_bytes()).filter(|n| least <= *n && *n <= most)
}

// Variables with a comma between two.
fn variables_of(heap: Global, word: &str) -> Result<Vec<u8>, Stop> {
    let variables: Option<Vec<u8>> = word.split(',').map(byte_of).collect(heap)?;
    variables.ok_or_else(|| {
        Stop::said(
            heap,
            format_args!(
                "planner: --order is `{word}`, and not natural, min-fill or variables with commas"
            ),
        )
    })
}

fn along_of(heap: Global, word: &str) -> Result<Along, Stop> {
    match word {
        "natural" => Ok(Along::Natural),
        "min-fill" => Ok(Along::MinFill),
        _ => variables_of(heap, word).map(Along::Listed),
    }
}

fn width_of(heap: Global, word: &str) -> Result<u8, Stop> {
    byte_of(word).ok_or_else(|| {
        Stop::said(
            heap,
            format_args!("planner: --width is `{word}`, and not a number from 0 to 255"),
        )
    })
}

fn cells_of(heap: Global, word: &str) -> Result<usize, Stop> {
    number_in(word, 2, MOST_CELLS as u32)
        .map(|n| n as usize)
        .ok_or_else(|| {
            Stop::said(
                heap,
                format_args!(
                    "planner: --area is `{word}`, and not a number from 2 to {MOST_CELLS}"
                ),
            )
        })
}

// Reads an option's value, if none was given before.
fn once<T: Drop, F: FnOnce() -> Result<T, Stop>>(
    given: &mut Option<T>,
    heap: Global,
    name: &str,
    read: F,
) -> Result<(), Stop>
    requires { F.IsAlwaysCallable read }
{
    if given.is_some() {
        return Err(Stop::said(heap, format_args!("planner: {name} is given twice")));
    }
    *given = Some(read()?);
    Ok(())
}

impl Given {
    // One option more.
    fn take(&mut self, heap: Global, name: &str, value: &str) -> Result<(), Stop> {
        match name {
            "--width" => once(&mut self.width, heap, name, || width_of(heap, value)),
            "--order" => once(&mut self.along, heap, name, || along_of(heap, value)),
            "--area" => once(&mut self.cells, heap, name, || cells_of(heap, value)),
            _ => Err(Stop::said(heap, format_args!("planner: no option `{name}`"))),
        }
    }
}

// How mini-buckets are to be made, by the rest of the command line.
pub(crate) fn asked_of(heap: Global, mut words: Args) -> Result<Asked, Stop> {
    let mut given = Given::default();
    while let Some(name) = words.next() {
        let value = words.next().ok_or_else(|| Stop::said(
            heap,
            format_args!("planner: {name} has no value"),
        ))?;
        given.take(heap, name.as_str(), value.as_str())?;
    }
    Ok(Asked {
        width: given.width,
        along: given.along.unwrap_or(Along::MinFill),
        cells: given.cells.unwrap_or(MOST_CELLS),
    })
}
