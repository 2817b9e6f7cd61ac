// What is wrong with a text, and where.
ghost use Rattle.std.specs.Prelude.{◌≡◌};
ghost use Rattle.words.specs.Faults.{flaw_number, flaw_carried};
ghost use Rattle.words.specs.declared.fault.Flaw.TheVariants.{Job};

use variables::refusal::Refusal;

#[derive(Clone, Copy, PartialEq, Eq, Debug)]
pub enum Flaw {
    // The job itself refuses, before any word.
    Job(Refusal),
    TextLength,
    Ended,
    NoNumber,
    AboveMaximum,
    // A number breaks a rule of the job.
    Rule(Refusal),
    LeftOver,
}

// The offset is that of the offending word, or the text's length where words are wanting.
#[derive(Clone, Copy, PartialEq, Eq, Debug)]
pub struct Fault {
    pub flaw: Flaw,
    pub at: usize,
}

impl Flaw {
    // The fault that it is at a place.
    pub fn at(self, at: usize) -> Fault
        ensures { result ≡ record { flaw = self; at = at } }
    {
        Fault { flaw: self, at }
    }

    // The number by which callers know it.
    // Not a cast of the variant: two of them carry a refusal.
    pub fn number(self) -> u8
        ensures { result ≡ flaw_number self }
    {
        match self {
            Flaw::Job(why) => why.number(),
            Flaw::TextLength => 15,
            Flaw::Ended => 16,
            Flaw::NoNumber => 17,
            Flaw::AboveMaximum => 18,
            Flaw::Rule(_) => 19,
            Flaw::LeftOver => 20,
        }
    }

    // The number of the job's refusal, where the flaw is a broken rule.
    pub fn carried(self) -> Option<u8>
        ensures { result ≡ flaw_carried self }
    {
        match self {
            Flaw::Rule(why) => Some(why.number()),
            _ => None,
        }
    }
}

// A refusal that comes before any word.
impl From<Refusal> for Fault {
    ghost from_gives = { λ why r. r ≡ record { flaw = Job why; at = 0 } };

    fn from(why: Refusal) -> Fault {
        Flaw::Job(why).at(0)
    }
}
