// The line of a text that is refused.
ghost use Rattle.std.specs.Prelude.{◌≡◌, IfOk, string_bytes};
ghost use Rattle.pages.specs.Lines.{refused_line};

use std::alloc::{AllocError, Global};
use words::fault::Fault;

// JOB: refused NUMBER at byte OFFSET, with the job's own number where one is carried
pub fn refused_line(heap: Global, job: &str, fault: Fault) -> Result<String, AllocError>
    ensures { IfOk result (λ s. string_bytes s ≡ refused_line job.now fault) }
{
    let number = fault.flaw.number();
    let at = fault.at;
    match fault.flaw.carried() {
        Some(carried) => format!(in heap; "{job}: refused {number} ({carried}) at byte {at}"),
        None => format!(in heap; "{job}: refused {number} at byte {at}"),
    }
}
