// What the command line asks for.
ghost use Rattle.std.specs.Prelude.{◌≡◌, ◌<◌, Some};
ghost use Rattle.words.specs.Numbers.{number};
ghost use Rattle.commands.specs.Values.{ValueOf};

use crate::options::{asked_of, byte_of};
use crate::stop::Stop;
use pages::asked::Asked;
use std::alloc::Global;
use std::env::Args;

#[derive(Drop)]
pub enum Command {
    // The job's file, and the setting's values by variable number.
    Cost { job: String, values: Vec<u8> },
    // The job's file, and how mini-buckets are to be made.
    Floors { job: String, asked: Asked },
    // The script's file.
    Run { script: String },
}

const USAGE: &str =
    "usage: planner cost JOB VALUE... | planner floors JOB [--width W] [--order natural|min-fill|V,V] [--area CELLS] | planner run SCRIPT";

// The value that a word stands for: a number from 0 to 255.
fn value_of(heap: Global, k: usize, word: &str) -> Result<u8, Stop>
    ensures { ValueOf word.now result }
{
    byte_of(word).ok_or_else(|| {
        Stop::said(
            heap,
            format_args!("planner: value {k} is `{word}`, and not a number from 0 to 255"),
        )
    })
}

// The values that the rest of the command line lists.
fn values_of(heap: Global, words: Args) -> Result<Vec<u8>, Stop> {
    words
        .enumerate()
        .map(|(k, word)| value_of(heap, k, word.as_str()))
        .try_collect(heap)
}

// The word that names the file of a job or a script.
fn file_of(heap: Global, words: &mut Args, command: &str, what: &str) -> Result<String, Stop> {
    words.next().ok_or_else(|| Stop::said(
        heap,
        format_args!("planner {command}: no {what}; {USAGE}"),
    ))
}

// cost JOB VALUE...
fn cost_of(heap: Global, mut words: Args) -> Result<Command, Stop> {
    let job = file_of(heap, &mut words, "cost", "job")?;
    let values = values_of(heap, words)?;
    Ok(Command::Cost { job, values })
}

// floors JOB [OPTION...]
fn floors_of(heap: Global, mut words: Args) -> Result<Command, Stop> {
    let job = file_of(heap, &mut words, "floors", "job")?;
    let asked = asked_of(heap, words)?;
    Ok(Command::Floors { job, asked })
}

// run SCRIPT
fn run_of(heap: Global, mut words: Args) -> Result<Command, Stop> {
    let script = file_of(heap, &mut words, "run", "script")?;
    if let Some(extra) = words.next() {
        return Err(Stop::said(
            heap,
            format_args!("planner run: `{extra}` is left over; {USAGE}"),
        ));
    }
    Ok(Command::Run { script })
}

// The command after the program's own name.
pub(crate) fn command_of(heap: Global, mut words: Args) -> Result<Command, Stop> {
    let _program = words.next();
    let name = words.next().ok_or_else(|| Stop::said(
        heap,
        format_args!("planner: no command; {USAGE}"),
    ))?;
    match name.as_str() {
        "cost" => cost_of(heap, words),
        "floors" => floors_of(heap, words),
        "run" => run_of(heap, words),
        _ => Err(Stop::said(heap, format_args!("planner: no command `{name}`; {USAGE}"))),
    }
}
