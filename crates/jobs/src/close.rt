// The end of a job, from every stage.
ghost use Rattle.jobs.specs.Standings.{closed, Stands};

use crate::job::{Job, Plain};
use costs::Cost;

impl<C: Cost, S> Job<C, S> {
    // Drops the functions; never refused.
    pub fn close(&mut self)
        ensures { Stands self.new closed self.old.source }
    {
        self.plain = Plain::closed();
    }
}
