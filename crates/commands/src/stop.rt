// Why the program stops before its end.
use pages::messages::Unmade;
use pages::pricing::Failure;
use pages::refused::refused_line;
use runs::page::Trouble;
use std::alloc::{AllocError, AllocFailed as NoPlace, Global};
use std::fmt;
use std::fmt::{Display, Formatter};

#[derive(Debug, Drop)]
pub enum Stop {
    // The one line that says where and what.
    Said(String),
    Memory,
}

// The line on standard error.
impl Display for Stop {
    fn fmt<W: fmt::Write>(&self, f: &mut Formatter<W>) -> fmt::Result {
        match self {
            Stop::Said(line) => write!(f, "{line}"),
            Stop::Memory => write!(f, "planner: no memory"),
        }
    }
}

impl From<AllocError> for Stop {
    fn from(_e: AllocError) -> Stop {
        Stop::Memory
    }
}

impl<T: Drop> From<NoPlace<T>> for Stop {
    fn from(_e: NoPlace<T>) -> Stop {
        Stop::Memory
    }
}

impl From<Result<String, AllocError>> for Stop {
    fn from(line: Result<String, AllocError>) -> Stop {
        line.map_or(Stop::Memory, Stop::Said)
    }
}

impl Stop {
    // The line that is given, or no memory for it.
    pub(crate) fn said<D: Display + Drop>(heap: Global, line: D) -> Stop {
        let line: Result<String, AllocError> = line.to_string(heap);
        Stop::from(line)
    }
}

// Why a job's file gave no page.
pub(crate) fn failure_stop(heap: Global, job: &str, failure: Failure, values: &[u8]) -> Stop {
    match failure {
        Failure::Memory => Stop::Memory,
        Failure::Refused(fault) => Stop::from(refused_line(heap, job, fault)),
        Failure::Values(wanted) => {
            let given = values.len();
            Stop::said(
                heap,
                format_args!(
                    "{job}: {wanted} values are wanted, one for each variable, and {given} were given"
                ),
            )
        }
        Failure::Value(v) => {
            let value = values.get(v).copied().unwrap_or(0);
            Stop::said(
                heap,
                format_args!("{job}: variable {v} has no value {value}"),
            )
        }
    }
}

// Why a job's file gave no messages.
pub(crate) fn unmade_stop(heap: Global, job: &str, why: Unmade) -> Stop {
    match why {
        Unmade::Memory => Stop::Memory,
        Unmade::Refused(fault) => Stop::from(refused_line(heap, job, fault)),
        Unmade::Unprepared(refusal) => {
            let number = refusal.number();
            Stop::said(heap, format_args!("{job}: prepare refused {number}"))
        }
    }
}

// Why a script's file gave no page: SCRIPT:LINE: what
pub(crate) fn trouble_stop(heap: Global, script: &str, trouble: Trouble) -> Stop {
    match trouble {
        Trouble::Memory => Stop::Memory,
        Trouble::Wrong(mistake) => {
            let line = mistake.line;
            let what = mistake.flaw.says();
            Stop::said(heap, format_args!("{script}:{line}: {what}"))
        }
    }
}
