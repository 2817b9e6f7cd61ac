// The line of each answer.
ghost use Rattle.std.specs.Prelude.{◌≡◌, IfOk, string_bytes};
ghost use Rattle.runs.specs.Lines.{done_line, refused_answer, entered_line, stepped_line};

use jobs::answer::{Report, Stepped, Verdict};
use jobs::stage::Stage;
use replay::calls::{Answer, Call, Shown};
use scripts::written::Written;
use std::alloc::{AllocError, Global};

// The word that a call begins its line with.
// Not an impl of Display, here and below: these words are of this page alone, and a call has two of them.
fn name<C>(call: &Call<C>) -> &'static str {
    match call {
        Call::Open { .. } => "open",
        Call::Enter { .. } => "enter",
        Call::Amend { .. } => "amend",
        Call::Prepare { .. } => "prepare",
        Call::Step { .. } => "step",
        Call::Report { .. } => "report",
        Call::Reopen => "reopen",
        Call::Close => "close",
    }
}

// What an accepted call that answers nothing more has led to.
fn state<C>(call: &Call<C>) -> &'static str {
    match call {
        Call::Open { .. } | Call::Reopen => "draft",
        Call::Prepare { .. } => "running",
        Call::Close => "closed",
        _ => "done",
    }
}

// open: draft, and so on
fn done(heap: Global, name: &str, state: &str) -> Result<String, AllocError>
    ensures { IfOk result (λ s. string_bytes s ≡ done_line name.now state.now) }
{
    format!(in heap; "{name}: {state}\n")
}

// enter: refused 7
fn refused(heap: Global, name: &str, number: u8) -> Result<String, AllocError>
    ensures { IfOk result (λ s. string_bytes s ≡ refused_answer name.now number) }
{
    format!(in heap; "{name}: refused {number}\n")
}

// enter: function K
fn entered(heap: Global, k: usize) -> Result<String, AllocError>
    ensures { IfOk result (λ s. string_bytes s ≡ entered_line k) }
{
    format!(in heap; "enter: function {k}\n")
}

// step: V visits, running   or   step: V visits, ended
fn stepped(heap: Global, visits: u32, state: &str) -> Result<String, AllocError>
    ensures { IfOk result (λ s. string_bytes s ≡ stepped_line visits state.now) }
{
    format!(in heap; "step: {visits} visits, {state}\n")
}

fn step_state(stepped: Stepped) -> &'static str {
    match stepped.stage {
        Stage::Ended => "ended",
        _ => "running",
    }
}

fn verdict_word(verdict: Verdict) -> &'static str {
    match verdict {
        Verdict::Best => "best",
        Verdict::SoFar => "so far",
        Verdict::NoneBelow => "none",
        Verdict::NothingYet => "nothing yet",
    }
}

// Whether a setting goes with the verdict.
fn shows_setting(verdict: Verdict) -> bool {
    matches!(verdict, Verdict::Best | Verdict::SoFar)
}

// report: best V... cost C bottom B visits N, and so on
fn reported<C: Written>(
    heap: Global,
    report: Report<C>,
    shown: &Shown,
) -> Result<String, AllocError> {
    let word = verdict_word(report.verdict);
    let mut line = format!(in heap; "report: {word}")?;
    if shows_setting(report.verdict) {
        for value in shown.values() {
            write!(line, " {value}")?;
        }
    }
    let cost = report.cost.show(heap)?;
    let bottom = report.bottom.show(heap)?;
    let visits = report.visits;
    writeln!(line, " cost {cost} bottom {bottom} visits {visits}")?;
    Ok(line)
}

// The line of a call's answer.
pub(crate) fn answer_line<C: Written>(
    heap: Global,
    call: &Call<C>,
    answer: &Answer<C>,
) -> Result<String, AllocError> {
    match answer {
        Answer::Done => done(heap, name(call), state(call)),
        Answer::Entered(k) => entered(heap, *k),
        Answer::Stepped(s) => stepped(heap, s.visits, step_state(*s)),
        Answer::Reported(report, shown) => reported(heap, *report, shown),
        Answer::Refused(refusal) => refused(heap, name(call), refusal.number()),
    }
}
