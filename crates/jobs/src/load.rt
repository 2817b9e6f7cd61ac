// A whole job from a text.
ghost use Rattle.std.specs.Prelude.{length};
ghost use Rattle.jobs.specs.Loading.{load_outcome, LoadsInto};
ghost use Rattle.jobs.specs.Standings.{standing};

use crate::job::{Job, Plain};
use crate::stage::{Call, Stage};
use wcsp::load::load;
use words::fault::Fault;

impl<S> Job<u32, S> {
    // Builds the job that the text describes, and answers the upper bound that the text gives; all is checked before anything is written.
    pub fn load(&mut self, text: &[u8], area: &mut [u32]) -> Result<u32, Fault>
        ensures { LoadsInto self.old self.new area.old area.new
            (load_outcome (standing self.old) text.now (length area.old)) result }
    {
        self.plain.stage.takes(Call::Load)?;
        let loaded = load(text, area)?;
        self.plain = Plain::fresh(Stage::Draft, loaded.shape, area.len());
        Ok(loaded.upper)
    }
}
