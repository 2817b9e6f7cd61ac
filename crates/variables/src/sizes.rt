// The domain sizes of a job's variables.
ghost use Rattle.std.specs.Prelude.{◌≡◌, [], ◌∷◌, ◌++◌, length, slice_index};
ghost use Rattle.variables.specs.Records.{sizes_of};
ghost use Rattle.variables.specs.Refusals.{Answers, first_of};
ghost use Rattle.variables.specs.Rules.{sizes_rows, size_rows};

pub use crate::plain::Sizes;
use crate::refusal::Refusal;

// How many variables a job has at most.
pub const MOST_VARIABLES: usize = 32;
// How many values a variable has at most.
pub const MOST_VALUES: u8 = 16;

impl Sizes {
    pub fn none() -> Sizes
        ensures { sizes_of result ≡ [] }
    {
        Sizes {
            sizes: [0; 32],
            len: 0,
        }
    }

    // The sizes of a list of 1 to 32 variables, each of 1 to 16 values.
    pub fn of(sizes: &[u8]) -> Result<Sizes, Refusal>
        ensures { Answers (first_of (sizes_rows sizes.now)) result (λ s. sizes_of s ≡ sizes.now) (Unit {0}) }
    {
        if sizes.is_empty() || sizes.len() > MOST_VARIABLES {
            return Err(Refusal::Variables);
        }
        let mut all = Sizes::none();
        for size in sizes {
            all.push(*size)?;
        }
        Ok(all)
    }

    // One variable more.
    pub fn push(&mut self, size: u8) -> Result<(), Refusal>
        ensures { Answers (first_of (size_rows (sizes_of self.old) size)) result
            (λ _. sizes_of self.new ≡ sizes_of self.old ++ size ∷ [])
            (self.new ≡ self.old) }
    {
        let len = self.len;
        if len == MOST_VARIABLES {
            return Err(Refusal::Variables);
        }
        if size == 0 || size > MOST_VALUES {
            return Err(Refusal::Size);
        }
        let mut sizes = self.sizes;
        sizes[len] = size;
        *self = Sizes {
            sizes,
            len: len + 1,
        };
        Ok(())
    }

    pub fn len(&self) -> usize
        ensures { result ≡ length (sizes_of self.now) }
    {
        self.len
    }

    // The domain size of a variable, 0 for one that is unknown.
    pub fn size(&self, variable: u8) -> u8
        ensures { result ≡ slice_index (sizes_of self.now) variable }
    {
        if (variable as usize) < self.len {
            self.sizes[variable as usize]
        } else {
            0
        }
    }
}
