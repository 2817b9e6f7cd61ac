// What gives floors. Other crates write sources of their own against this trait.
ghost use Rattle.std.specs.Prelude.{◌≡◌, ◌+◌, ◌≤◌, true, length};
ghost use Rattle.problems.specs.Outlines.{outline};
ghost use Rattle.variables.specs.Records.{prefix_of};
ghost use Rattle.floors.specs.Rules.{Rules, Sound, Fills, Told, Low, frame};

use costs::Cost;
use problems::shape::Shape;
use variables::prefix::Prefix;

pub trait FloorSource<C: Cost> {
    ghost rules: { Rules C Self };

    // Whether it takes the job, by its sizes, scopes and order.
    fn suits(&self, shape: &Shape) -> bool
        ensures { result ≡ rules.suits self.now (frame (outline shape.now)) };

    // How many cells it needs.
    fn room(&self, shape: &Shape) -> usize
        ensures { result ≡ rules.room self.now (frame (outline shape.now)) };

    // Writes its cells, from `at` on and behind the tables.
    fn fill(&mut self, shape: &Shape, area: &mut [C], at: usize)
        requires suited { rules.suits self.old (frame (outline shape.now)) ≡ true }
        requires behind { (outline shape.now).used ≤ at }
        requires there { at + rules.room self.old (frame (outline shape.now)) ≤ length area.old }
        ensures { Fills rules (outline shape.now) self.old self.new area.old area.new at };

    // The floor of a prefix, while the tables and the filled cells stand.
    fn floor(&self, shape: &Shape, prefix: &Prefix, area: &[C], at: usize) -> C
        ensures told { prefix.now.len ≤ length (outline shape.now).order
            → Told rules (outline shape.now) self.now area.now at (prefix_of shape.now.order prefix.now) result }
        ensures low { prefix.now.len ≤ length (outline shape.now).order
            → Low rules C.Cost.structure (outline shape.now) self.now area.now at (prefix_of shape.now.order prefix.now) result };

    ghost sound: { Sound C.Cost.structure rules };
}
