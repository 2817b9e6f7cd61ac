// Values of variables.
ghost use Rattle.std.specs.Prelude.{◌≡◌, ℕ, slice_set};
ghost use Rattle.variables.specs.Assignments.{of};
ghost use Rattle.variables.specs.Records.{sizes_of, values_of, Fills};

pub use crate::plain::{Misfit, Setting};
use crate::sizes::Sizes;

impl Setting {
    // No variable has a value yet.
    pub fn empty() -> Setting
        ensures { (v : ℕ) → of (values_of result) v ≡ 0 }
    {
        Setting { values: [0; 32] }
    }

    // A full setting: a value of its domain for every variable.
    pub fn full(values: &[u8], sizes: &Sizes) -> Result<Setting, Misfit>
        ensures { Fills (sizes_of sizes.now) values.now result }
    {
        if values.len() != sizes.len() {
            return Err(Misfit::Length);
        }
        let mut slots = [0; 32];
        for (v, value) in values.iter().enumerate() {
            if *value >= sizes.sizes[v] {
                return Err(Misfit::Value(v));
            }
            slots[v] = *value;
        }
        Ok(Setting { values: slots })
    }

    // One variable's value; a variable past the last slot has none.
    pub fn give(&mut self, variable: u8, value: u8)
        ensures { values_of self.new ≡ slice_set (values_of self.old) variable value }
    {
        let slot = variable as usize;
        if slot < self.values.len() {
            self.values[slot] = value;
        }
    }

    pub fn value(&self, variable: u8) -> u8
        ensures { result ≡ of (values_of self.now) variable }
    {
        self.values.get(variable as usize).copied().unwrap_or(0)
    }
}
