// The numbers that a text begins with.
ghost use Rattle.std.specs.Prelude.{◌≡◌, length};
ghost use Rattle.words.specs.Readings.{answered, Agrees};
ghost use Rattle.words.specs.Readers.{text_of, left_of};
ghost use Rattle.words.specs.Ruled.{any, kept_or, number_by};
ghost use Rattle.wcsp.specs.Rules.{variables_rule};
ghost use Rattle.wcsp.specs.Layouts.{heading};
ghost use Rattle.wcsp.specs.Headings.{Heads};

use variables::refusal::Refusal;
use words::fault::Fault;
use words::number::Number;
use words::reader::Reader;

// What is kept of them: the numbers of variables and of functions, the largest domain and the upper bound.
#[derive(Clone, Copy)]
pub(crate) struct Heading {
    pub(crate) variables: u32,
    pub(crate) largest: u32,
    pub(crate) functions: u32,
    pub(crate) upper: u32,
}

// One to 32 variables.
fn variables(reader: &mut Reader) -> Result<u32, Fault>
    ensures kept { text_of reader.new ≡ text_of reader.old }
    ensures read { answered result (left_of reader.new) ≡ number_by (length (text_of reader.old)) variables_rule (left_of reader.old) }
{
    let number = reader.number()?;
    if (1..=32).contains(&number.value) {
        Ok(number.value)
    } else {
        Err(number.breaks(Refusal::Variables))
    }
}

// The name, the number of variables, the maximum domain size, the function count and the upper bound.
pub(crate) fn read_heading(reader: &mut Reader) -> Result<Heading, Fault>
    ensures kept { text_of reader.new ≡ text_of reader.old }
    ensures read { Agrees (heading (length (text_of reader.old)) (left_of reader.old)) result (left_of reader.new) Heads }
{
    reader.word()?;
    let variables = variables(reader)?;
    let largest = reader.figure()?;
    let functions = reader.up_to(64, Refusal::Functions)?;
    let upper = reader.figure()?;
    Ok(Heading {
        variables,
        largest,
        functions,
        upper,
    })
}
