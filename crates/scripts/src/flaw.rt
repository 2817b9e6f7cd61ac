// What is wrong with a line of a script.
use std::alloc::{AllocError, AllocFailed as NoPlace};

#[derive(Clone, Copy, PartialEq, Eq, Debug)]
pub enum Flaw {
    Memory,
    // A heading line is missing, or another line stands in its place.
    Costs,
    Source,
    Areas,
    // The line begins with no call's name.
    Call,
    // A word is missing, or may not stand there.
    Word,
    // A word is left over.
    Extra,
    // Not a number from 0 to 255, to 65,535 or to 4,294,967,295.
    Small,
    Middle,
    Large,
    // Not a cost of the script's structure.
    Cost,
    // An area that was not declared.
    Unknown,
}

impl From<AllocError> for Flaw {
    fn from(_e: AllocError) -> Flaw {
        Flaw::Memory
    }
}

impl<T: Drop> From<NoPlace<T>> for Flaw {
    fn from(_e: NoPlace<T>) -> Flaw {
        Flaw::Memory
    }
}

impl Flaw {
    // What is said of it.
    // Not an impl of Display: other crates call this by its name, and one form is enough.
    pub fn says(self) -> &'static str {
        match self {
            Flaw::Memory => "no memory",
            Flaw::Costs => "the line `costs sum`, `costs worst` or `costs ranked` is wanted",
            Flaw::Source =>
                "the line `source paid`, `source first-choice` or `source mini-bucket W` is wanted",
            Flaw::Areas => "the line `areas LENGTH... [of COST]` is wanted",
            Flaw::Call => "the line begins with no call's name",
            Flaw::Word => "a word is missing, or is none that may stand there",
            Flaw::Extra => "a word is left over",
            Flaw::Small => "a number from 0 to 255 is wanted",
            Flaw::Middle => "a number from 0 to 65535 is wanted",
            Flaw::Large => "a number from 0 to 4294967295 is wanted",
            Flaw::Cost => "a cost is wanted",
            Flaw::Unknown => "there is no such area",
        }
    }
}

// A flaw, and the number of its line from 1.
#[derive(Clone, Copy, PartialEq, Eq, Debug)]
pub struct Mistake {
    pub line: usize,
    pub flaw: Flaw,
}
