// What is known so far.
ghost use Rattle.std.specs.Prelude.{◌≡◌, ℕ, ◌≤◌, List, length, is_some, Option as Maybe};
ghost use Rattle.variables.specs.Refusals.{Answers, first_of};
ghost use Rattle.jobs.specs.Planning.{buffer_rows, report_rows, verdict_of, listed, listing, Reports};
ghost use Rattle.jobs.specs.Standings.{standing, standing_of};

use crate::answer::{Report, Verdict};
use crate::cells::BAR;
use crate::job::{Job, Plain};
use crate::stage::{Call, Stage};
use costs::Cost;
use floors::source::FloorSource;
use variables::prefix::Prefix;
use variables::refusal::Refusal;
use variables::setting::Setting;

impl Plain {
    // The buffer has to have a place for each variable.
    fn takes_buffer(&self, places: usize) -> Result<(), Refusal>
        ensures { Answers (first_of (buffer_rows (length (standing_of self.now).outline.sizes) places)) result (λ _. Unit {0}) (Unit {0}) }
    {
        if places != self.shape.sizes().len() {
            return Err(Refusal::Buffer);
        }
        Ok(())
    }
}

// What a stage says of a setting that was found, or of none.
fn verdict(stage: Stage, incumbent: &Option<Setting>) -> Verdict
    ensures { (found : Maybe (List ℕ)) → is_some found ≡ is_some incumbent.now → result ≡ verdict_of stage found }
{
    match (stage, incumbent) {
        (Stage::Ended, Some(_)) => Verdict::Best,
        (Stage::Ended, None) => Verdict::NoneBelow,
        (_, Some(_)) => Verdict::SoFar,
        (_, None) => Verdict::NothingYet,
    }
}

// The values of a setting, by variable number.
fn list(setting: &Setting, buffer: &mut [u8])
    requires few { length buffer.old ≤ 32 }
    ensures { buffer.new ≡ listed setting.now buffer.old }
{
    for (variable, place) in buffer.iter_mut().enumerate() {
        *place = setting.value(variable as u8);
    }
}

impl<C: Cost, S: FloorSource<C>> Job<C, S> {
    // The verdict, with the content of cell 1, the bottom and the visits; an incumbent goes into the buffer by variable number.
    pub fn report(&self, buffer: &mut [u8], area: &[C]) -> Result<Report<C>, Refusal>
        ensures { Answers (first_of (report_rows (standing self.now) (length buffer.old) (length area.now))) result
            (Reports S.FloorSource.rules C.Cost.structure self.now area.now buffer.old buffer.new)
            (buffer.new ≡ buffer.old) }
    {
        let plain = self.plain;
        plain.takes(Call::Report, area.len())?;
        plain.takes_buffer(buffer.len())?;
        let incumbent = plain.place.incumbent();
        if let Some(setting) = &incumbent {
            list(setting, buffer);
        }
        let empty = Prefix::empty();
        let bottom = self
            .source
            .floor(&plain.shape, &empty, area, plain.shape.used());
        Ok(Report {
            verdict: verdict(plain.stage, &incumbent),
            cost: area[BAR],
            bottom,
            visits: plain.visits,
        })
    }
}
