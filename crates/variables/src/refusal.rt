// Why a call is refused.
ghost use Rattle.std.specs.Prelude.{◌≡◌};
ghost use Rattle.variables.specs.Refusals.{number_of};

#[derive(Clone, Copy, PartialEq, Eq, Debug)]
pub enum Refusal {
    Variables = 1,
    Size = 2,
    Area = 3,
    Stage = 4,
    AreaLength = 5,
    Scope = 6,
    Functions = 7,
    Room = 8,
    Function = 9,
    Tuple = 10,
    Order = 11,
    Source = 12,
    Budget = 13,
    Buffer = 14,
}

impl Refusal {
    // The number by which callers know it.
    pub fn number(self) -> u8
        ensures { result ≡ number_of self }
    {
        self as u8
    }
}
