// The variables that a function reads.
ghost use Rattle.std.specs.Prelude.{◌≡◌, ℕ, ◌≤◌, true, false, [], ◌∷◌, ◌++◌, length, MatchOption};
ghost use Rattle.variables.specs.Assignments.{of, along, cells, cell_from};
ghost use Rattle.variables.specs.Records.{sizes_of, scope_of, values_of};
ghost use Rattle.variables.specs.Refusals.{Answers, first_of};
ghost use Rattle.variables.specs.Rules.{scope_rows, variable_rows, fits};

use crate::listing::lists;
pub use crate::plain::Scope;
use crate::refusal::Refusal;
use crate::setting::Setting;
use crate::sizes::Sizes;

// How many variables a function reads at most.
pub const MOST_ARITY: usize = 5;

impl Scope {
    pub fn none() -> Scope
        ensures { scope_of result ≡ [] }
    {
        Scope {
            len: 0,
            variables: [0; 5],
        }
    }

    // A scope of at most five variables, each one known and none repeated.
    pub fn of(variables: &[u8], sizes: &Sizes) -> Result<Scope, Refusal>
        ensures { Answers (first_of (scope_rows (length (sizes_of sizes.now)) variables.now)) result
            (λ s. scope_of s ≡ variables.now) (Unit {0}) }
    {
        let mut scope = Scope::none();
        for variable in variables {
            scope.push(*variable, sizes)?;
        }
        Ok(scope)
    }

    // One variable more.
    pub fn push(&mut self, variable: u8, sizes: &Sizes) -> Result<(), Refusal>
        ensures { Answers (first_of (variable_rows (length (sizes_of sizes.now)) (scope_of self.old) variable)) result
            (λ _. scope_of self.new ≡ scope_of self.old ++ variable ∷ [])
            (self.new ≡ self.old) }
    {
        let len = self.len;
        if len as usize == MOST_ARITY
            || variable as usize >= sizes.len()
            || lists(self.variables(), variable)
        {
            return Err(Refusal::Scope);
        }
        let mut variables = self.variables;
        variables[len as usize] = variable;
        *self = Scope {
            len: len + 1,
            variables,
        };
        Ok(())
    }

    // The variables in the order of the scope.
    pub fn variables(&self) -> &[u8]
        ensures { result.now ≡ scope_of self.now }
    {
        let len = self.len as usize;
        &self.variables[0..len]
    }

    // How many cells a table over this scope has: one for each tuple.
    pub fn table_cells(&self, sizes: &Sizes) -> usize
        ensures count { result ≡ cells (sizes_of sizes.now) (scope_of self.now) }
        ensures few { result ≤ 1048576 }
    {
        let mut count = 1;
        for v in self.variables() {
            count *= sizes.sizes[*v as usize] as usize;
        }
        count
    }

    // The cell of a setting's tuple: multiply by each domain size in turn and add the value.
    pub fn cell(&self, sizes: &Sizes, setting: &Setting) -> usize
        ensures place { result ≡ cell_from (sizes_of sizes.now) 0 (scope_of self.now) (of (values_of setting.now)) }
        ensures bound { result ≤ 17825792 }
    {
        let mut at = 0;
        for v in self.variables() {
            at = at * sizes.sizes[*v as usize] as usize + setting.values[*v as usize] as usize;
        }
        at
    }

    // The setting that gives this scope a tuple's values, if they are of its domains.
    pub fn setting(&self, tuple: &[u8], sizes: &Sizes) -> Option<Setting>
        ensures { MatchOption result (fits (sizes_of sizes.now) (scope_of self.now) tuple.now ≡ false)
            (λ s. (fits (sizes_of sizes.now) (scope_of self.now) tuple.now ≡ true)
            × ((v : ℕ) → of (values_of s) v ≡ along (scope_of self.now) tuple.now v)) }
    {
        let variables = self.variables();
        if variables.len() != tuple.len() {
            return None;
        }
        let mut setting = Setting::empty();
        for (k, v) in variables.iter().enumerate() {
            if tuple[k] >= sizes.size(*v) {
                return None;
            }
            setting.give(*v, tuple[k]);
        }
        Some(setting)
    }
}
