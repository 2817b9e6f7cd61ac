// The number that a word spells.
ghost use Rattle.std.specs.Prelude.{◌≡◌, ◌≤◌, length};
ghost use Rattle.words.specs.Numbers.{digits_from, number};
ghost use Rattle.words.specs.declared.fault.Flaw.TheVariants.{Rule};

use crate::fault::{Fault, Flaw};
use variables::refusal::Refusal;

// A number, and where its word begins.
#[derive(Clone, Copy, PartialEq, Eq, Debug)]
pub struct Number {
    pub value: u32,
    pub at: usize,
}

impl Number {
    // The fault of a number that breaks a rule of the job.
    pub fn breaks(self, why: Refusal) -> Fault
        ensures { result ≡ record { flaw = Rule why; at = self.at } }
    {
        Flaw::Rule(why).at(self.at)
    }
}

const LONGEST: usize = 10;

// What up to ten digits are worth: less than 64 bits hold.
// Not a try_fold: its closure could not show that the sum fits, which rests on how many digits were read.
fn digits(bytes: &[u8]) -> Option<u64>
    requires { length bytes.now ≤ 10 }
    ensures { result ≡ digits_from 0 bytes.now }
{
    let mut value: u64 = 0;
    for byte in bytes {
        if !byte.is_ascii_digit() {
            return None;
        }
        value = value * 10 + u64::from(*byte - b'0');
    }
    Some(value)
}

// The number that a word's bytes spell, if they spell one.
pub fn parsed(bytes: &[u8]) -> Option<u32>
    ensures { result ≡ number bytes.now }
{
    if (1..=LONGEST).contains(&bytes.len()) {
        digits(bytes).and_then(|value| u32::try_from(value).ok())
    } else {
        None
    }
}
