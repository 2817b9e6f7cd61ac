// Reads the words of a lent text one by one.
ghost use Rattle.std.specs.Prelude.{◌≡◌, length, nat_le};
ghost use Rattle.words.specs.Words.{words};
ghost use Rattle.words.specs.Readings.{next, numeral, rest_of, answered, nothing_left};
ghost use Rattle.words.specs.Ruled.{any, kept_or, number_by};
ghost use Rattle.words.specs.Readers.{text_of, left_of, seen};

use crate::fault::{Fault, Flaw};
use crate::number::{Number, parsed};
pub use crate::plain::Reader;
use crate::run::{blanks, run};
use variables::refusal::Refusal;

// A part of the text, and where it begins.
#[derive(Clone, Copy)]
pub struct Word<'a> {
    pub at: usize,
    pub bytes: &'a [u8],
}

impl<'a> Reader<'a> {
    // A reader of the whole text, from its start.
    pub fn new(text: &'a [u8]) -> Reader<'a>
        ensures whole { text_of result ≡ text.now }
        ensures start { left_of result ≡ words text.now }
    {
        Reader { text, at: 0 }
    }

    // The next word.
    // Not an invariant, that the text stays (kept): it speaks of before and after, and no one value can say it.
    pub fn word(&mut self) -> Result<Word<'a>, Fault>
        ensures kept { text_of self.new ≡ text_of self.old }
        ensures moved { left_of self.new ≡ rest_of (left_of self.old) }
        ensures read { answered (seen result) (left_of self.new) ≡ next (length (text_of self.old)) (left_of self.old) }
    {
        let from = self.at + blanks(&self.text[self.at..]);
        let to = from + run(&self.text[from..]);
        self.at = to;
        if from < to {
            Ok(Word {
                at: from,
                bytes: &self.text[from..to],
            })
        } else {
            Err(Flaw::Ended.at(self.text.len()))
        }
    }

    // The next word, as a number.
    pub fn number(&mut self) -> Result<Number, Fault>
        ensures kept { text_of self.new ≡ text_of self.old }
        ensures moved { left_of self.new ≡ rest_of (left_of self.old) }
        ensures read { answered result (left_of self.new) ≡ numeral (length (text_of self.old)) (left_of self.old) }
    {
        let word = self.word()?;
        let value = parsed(word.bytes).ok_or(Flaw::NoNumber.at(word.at))?;
        Ok(Number { value, at: word.at })
    }

    // A number of any size.
    pub fn figure(&mut self) -> Result<u32, Fault>
        ensures kept { text_of self.new ≡ text_of self.old }
        ensures read { answered result (left_of self.new) ≡ number_by (length (text_of self.old)) any (left_of self.old) }
    {
        let figure = self.number()?;
        Ok(figure.value)
    }

    // A number up to a largest one.
    // Not a method with the rule as a closure: most rules write (a size, a scope's variable), which a proof then loses.
    pub fn up_to(&mut self, most: u32, why: Refusal) -> Result<u32, Fault>
        ensures kept { text_of self.new ≡ text_of self.old }
        ensures read { answered result (left_of self.new) ≡ number_by (length (text_of self.old)) (λ n. kept_or (nat_le n most) why) (left_of self.old) }
    {
        let number = self.number()?;
        if number.value <= most {
            Ok(number.value)
        } else {
            Err(number.breaks(why))
        }
    }

    // No word may be left over.
    pub fn end(&mut self) -> Result<(), Fault>
        ensures { result ≡ nothing_left tt (left_of self.old) }
    {
        match self.word() {
            Ok(word) => Err(Flaw::LeftOver.at(word.at)),
            Err(_) => Ok(()),
        }
    }
}
