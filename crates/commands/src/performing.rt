// Carries out what the command line asks for.
ghost use Rattle.std.specs.Prelude.{◌<◌};
ghost use Rattle.std.specs.Process.{exit_status};

use crate::command::{Command, command_of};
use crate::files::file_text;
use crate::stop::{Stop, failure_stop, trouble_stop, unmade_stop};
use pages::asked::Asked;
use pages::messages::messages_page;
use pages::pricing::cost_page;
use runs::page::run_page;
use std::env::args;
use std::io;
use std::io::Write;
use std::process::ExitCode;

// The page that the command line asks for.
fn page(rt: &HostRuntime) -> Result<Vec<u8>, Stop> {
    let heap = rt.alloc();
    let words = args(rt).map_err(|e| {
        Stop::said(
            heap,
            format_args!("planner: the command line cannot be read: {e}"),
        )
    })?;
    match command_of(heap, words)? {
        Command::Cost { job, values } => cost(rt, job.as_str(), values.as_slice()),
        Command::Floors { job, asked } => floors(rt, job.as_str(), &asked),
        Command::Run { script } => run_script(rt, script.as_str()),
    }
}

// What one setting costs.
fn cost(rt: &HostRuntime, job: &str, values: &[u8]) -> Result<Vec<u8>, Stop> {
    let text = file_text(rt, job)?;
    cost_page(rt.alloc(), text.as_slice(), values).map_err(|failure| failure_stop(
        rt.alloc(),
        job,
        failure,
        values,
    ))
}

// The messages and the bottom of a mini-bucket source.
fn floors(rt: &HostRuntime, job: &str, asked: &Asked) -> Result<Vec<u8>, Stop> {
    let text = file_text(rt, job)?;
    messages_page(rt.alloc(), text.as_slice(), asked).map_err(|why| unmade_stop(
        rt.alloc(),
        job,
        why,
    ))
}

// The answers of a script's calls.
fn run_script(rt: &HostRuntime, script: &str) -> Result<Vec<u8>, Stop> {
    let text = file_text(rt, script)?;
    run_page(rt.alloc(), text.as_slice()).map_err(|trouble| trouble_stop(
        rt.alloc(),
        script,
        trouble,
    ))
}

// Prints the page that the command line asks for; a mistake is one line on standard error.
pub fn perform(rt: &HostRuntime) -> io::Result<()> {
    match page(rt) {
        Ok(page) => rt.stdout().write_all(page.as_slice()),
        Err(stop) => {
            eprintln!(rt; "{stop}")?;
            Err(io::Error::other("stopped"))
        }
    }
}

// A program's whole `main`: 0 where the page was printed, and 1 after a mistake.
pub fn run(rt: &HostRuntime) -> ExitCode
    ensures { exit_status result < 2 }
{
    perform(rt).map_or(ExitCode::FAILURE, |()| ExitCode::SUCCESS)
}
