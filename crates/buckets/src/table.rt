// The table of a message: for each tuple of its scope, the least over the bucket's values of its mini-bucket's functions combined.
ghost use Rattle.std.specs.Prelude.{◌≡◌, ℕ, ◌+◌, ◌<◌, ◌≤◌, true, false, ◌∷◌, ◌++◌, map, length, take, drop, slice_index};
ghost use Rattle.costs.specs.Structures.{total};
ghost use Rattle.variables.specs.Lists.{has};
ghost use Rattle.variables.specs.Assignments.{of, cells, cell_from};
ghost use Rattle.variables.specs.Records.{sizes_of, scope_of, values_of};
ghost use Rattle.problems.specs.Records.{held, function_in};
ghost use Rattle.floors.specs.Leasts.{least_of};
ghost use Rattle.floors.specs.Settings.{assign, values};
ghost use Rattle.floors.specs.MiniBuckets.{tabulate, eliminated};
ghost use Rattle.buckets.specs.Listed.{listed};
ghost use Rattle.buckets.specs.Joining.{names};
ghost use Rattle.buckets.specs.Tables.{Below};

use crate::plain::Records;
use costs::Cost;
use variables::scope::Scope;
use variables::setting::Setting;
use variables::sizes::Sizes;

// The setting that gives a scope the tuple of a cell.
fn tuple(scope: &Scope, sizes: &Sizes, cell: usize) -> Setting
    requires { cell < cells (sizes_of sizes.now) (scope_of scope.now) }
    ensures place { cell_from (sizes_of sizes.now) 0 (scope_of scope.now) (of (values_of result)) ≡ cell }
    ensures ranged { (v : ℕ) → has (scope_of scope.now) v ≡ true → of (values_of result) v < slice_index (sizes_of sizes.now) v }
    ensures others { (v : ℕ) → has (scope_of scope.now) v ≡ false → of (values_of result) v ≡ 0 }
{
    let mut setting = Setting::empty();
    let mut left = cell;
    for v in scope.variables().iter().rev() {
        let size = sizes.size(*v) as usize;
        setting.give(*v, (left % size) as u8);
        left /= size;
    }
    setting
}

// The least of what the functions cost together, over the values of a variable.
fn least<C: Cost>(members: &Records, sizes: &Sizes, variable: u8, tuple: &Setting, area: &[C]) -> C
    requires { 0 < slice_index (sizes_of sizes.now) variable }
    ensures { result ≡ least_of C.Cost.structure (map (λ c. total C.Cost.structure (map (held C.Cost.structure (sizes_of sizes.now) area.now (assign (of (values_of tuple.now)) variable c)) (listed members.now))) (values (sizes_of sizes.now) variable)) }
{
    let mut setting = *tuple;
    setting.give(variable, 0);
    let mut least = members.cost(sizes, &setting, area);
    for value in 1..sizes.size(variable) {
        setting.give(variable, value);
        let cost = members.cost(sizes, &setting, area);
        if !least.is_at_most(cost) {
            least = cost;
        }
    }
    least
}

// Writes a message's table from `start` on, behind the tables of its mini-bucket's functions.
pub(crate) fn write<C: Cost>(
    members: &Records,
    sizes: &Sizes,
    scope: &Scope,
    variable: u8,
    area: &mut [C],
    start: usize,
)
    requires there { start + cells (sizes_of sizes.now) (scope_of scope.now) ≤ length area.old }
    requires some { 0 < slice_index (sizes_of sizes.now) variable }
    requires below { Below (sizes_of sizes.now) start (listed members.now) }
    requires inside { (u : ℕ) → names (listed members.now) u ≡ true → has (variable ∷ scope_of scope.now) u ≡ true }
    ensures { area.new ≡ take start area.old
        ++ (tabulate (sizes_of sizes.now) (scope_of scope.now) (eliminated C.Cost.structure (sizes_of sizes.now) variable (map (function_in (sizes_of sizes.now) area.old) (listed members.now))) (λ u. 0)
        ++ drop (start + cells (sizes_of sizes.now) (scope_of scope.now)) area.old) }
{
    // Not iter_mut: the area would be split first, for the functions are read from it, and the cell's number is wanted all the same.
    for k in 0..scope.table_cells(sizes) {
        let setting = tuple(scope, sizes, k);
        let cost = least(members, sizes, variable, &setting, area);
        area[start + k] = cost;
    }
}
