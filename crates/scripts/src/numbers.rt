// The words of a line, and numbers within a range.
ghost use Rattle.std.specs.Prelude.{◌≡◌, ℕ, List, Option};
ghost use Rattle.std.specs.Result.{result_ok};
ghost use Rattle.std.specs.Option.{option_map};
ghost use Rattle.words.specs.Readers.{left_of};
ghost use Rattle.words.specs.Readings.{rest_of};
ghost use Rattle.scripts.specs.Costs.{short_word, sum_word, worst_word};
ghost use Rattle.scripts.specs.Lines.{first_word};

use crate::flaw::Flaw;
use std::alloc::Global;
use words::number::parsed;
use words::reader::Reader;

// The next word, if there is one.
pub(crate) fn word<'a>(words: &mut Reader<'a>) -> Option<&'a [u8]>
    ensures read { option_map (λ x. x.now) result ≡ first_word (left_of words.old) }
    ensures moved { left_of words.new ≡ rest_of (left_of words.old) }
{
    words.word().ok().map(|word| word.bytes)
}

// The next word, which has to be there.
pub(crate) fn wanted<'a>(words: &mut Reader<'a>) -> Result<&'a [u8], Flaw> {
    word(words).ok_or(Flaw::Word)
}

// A range of numbers, and what is said where one of them is wanted.
pub(crate) trait Ranged: Sized {
    const FLAW: Flaw;

    // The number that a word spells, if it is in the range.
    ghost spelled: { List ℕ → Option Self };

    fn spelled_by(word: &[u8]) -> Option<Self>
        ensures { result ≡ spelled word.now };
}

impl Ranged for u8 {
    const FLAW: Flaw = Flaw::Small;

    ghost spelled = { short_word };

    fn spelled_by(word: &[u8]) -> Option<u8> {
        parsed(word).and_then(|n| u8::try_from(n).ok())
    }
}

impl Ranged for u16 {
    const FLAW: Flaw = Flaw::Middle;

    ghost spelled = { worst_word };

    fn spelled_by(word: &[u8]) -> Option<u16> {
        parsed(word).and_then(|n| u16::try_from(n).ok())
    }
}

impl Ranged for u32 {
    const FLAW: Flaw = Flaw::Large;

    ghost spelled = { sum_word };

    fn spelled_by(word: &[u8]) -> Option<u32> {
        parsed(word)
    }
}

// The number that a word spells.
pub(crate) fn number<N: Ranged>(word: &[u8]) -> Result<N, Flaw>
    ensures { result_ok result ≡ N.Ranged.spelled word.now }
{
    N::spelled_by(word).ok_or(N::FLAW)
}

// No word may be left over.
pub(crate) fn end(words: &mut Reader) -> Result<(), Flaw> {
    match word(words) {
        Some(_) => Err(Flaw::Extra),
        None => Ok(()),
    }
}

// Whether a word begins as a number does.
fn numeric(word: &[u8]) -> bool {
    word.first().is_some_and(|byte| byte.is_ascii_digit())
}

// Numbers from 0 to 255, and the first word behind them, if there is one.
#[derive(Drop)]
pub(crate) struct List<'a> {
    pub numbers: Vec<u8>,
    pub behind: Option<&'a [u8]>,
}

impl List<'_> {
    // The numbers, where this word stands behind them.
    pub(crate) fn before(self, word: &[u8]) -> Result<Vec<u8>, Flaw> {
        if self.behind == Some(word) {
            Ok(self.numbers)
        } else {
            Err(Flaw::Word)
        }
    }
}

// The numbers up to the first word that is none.
pub(crate) fn listed<'a>(heap: Global, words: &mut Reader<'a>) -> Result<List<'a>, Flaw> {
    let mut numbers = Vec::new(heap);
    while let Some(next) = word(words) {
        if !numeric(next) {
            return Ok(List {
                numbers,
                behind: Some(next),
            });
        }
        numbers.push(number(next)?)?;
    }
    Ok(List {
        numbers,
        behind: None,
    })
}
