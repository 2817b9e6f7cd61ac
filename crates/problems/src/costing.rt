// What settings cost.
ghost use Rattle.std.specs.Prelude.{◌≡◌, ℕ, List, map};
ghost use Rattle.costs.specs.Structures.{total};
ghost use Rattle.problems.specs.Outlines.{outline, problem};
ghost use Rattle.variables.specs.Assignments.{of, Full};
ghost use Rattle.problems.specs.Problems.{cost};
ghost use Rattle.variables.specs.Records.{sizes_of, values_of};
ghost use Rattle.problems.specs.Records.{placed_of, nth, held, held_by};

use crate::records::TableRecord;
use crate::shape::Shape;
use costs::Cost;
use variables::setting::Setting;
use variables::sizes::Sizes;

impl<const END: usize> TableRecord<END> {
    // What it costs at a setting: the content of its cell, neutral past the area's end.
    pub fn cost<C: Cost>(&self, sizes: &Sizes, setting: &Setting, area: &[C]) -> C
        ensures { result ≡ held C.Cost.structure (sizes_of sizes.now) area.now (of (values_of setting.now)) (placed_of self.now) }
    {
        let at = self.start.saturating_add(self.scope.cell(sizes, setting));
        if at < area.len() {
            area[at]
        } else {
            C::neutral()
        }
    }
}

// What tables cost together at a setting.
pub fn combined_cost<C: Cost, const END: usize>(
    records: &[TableRecord<END>],
    sizes: &Sizes,
    setting: &Setting,
    area: &[C],
) -> C
    ensures { result ≡ total C.Cost.structure (map (held C.Cost.structure (sizes_of sizes.now) area.now (of (values_of setting.now))) (map placed_of records.now)) }
{
    let mut sum = C::neutral();
    for record in records {
        sum = sum.combine(record.cost(sizes, setting, area));
    }
    sum
}

impl Shape {
    // What a setting costs: every function's cost there combined.
    pub fn cost<C: Cost>(&self, setting: &Setting, area: &[C]) -> C
        ensures exact { result ≡ total C.Cost.structure (map (held C.Cost.structure (outline self.now).sizes area.now (of (values_of setting.now))) (outline self.now).functions) }
        ensures full { (s : List ℕ) → Full (outline self.now).sizes s → ((v : ℕ) → of (values_of setting.now) v ≡ of s v)
            → result ≡ cost C.Cost.structure (problem (outline self.now) area.now) s }
    {
        combined_cost(self.functions(), &self.sizes, setting, area)
    }

    // What one function costs at a setting, neutral for a number that none has.
    pub fn function_cost<C: Cost>(&self, number: usize, setting: &Setting, area: &[C]) -> C
        ensures { result ≡ held_by C.Cost.structure (outline self.now).sizes area.now (of (values_of setting.now)) (nth (outline self.now).functions number) }
    {
        match self.function(number) {
            Some(function) => function.cost(&self.sizes, setting, area),
            None => C::neutral(),
        }
    }
}
