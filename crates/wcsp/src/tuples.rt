// The tuples of a text.
ghost use Rattle.std.specs.Prelude.{◌≡◌, ℕ, true, [], length};
ghost use Rattle.variables.specs.Assignments.{of, along};
ghost use Rattle.variables.specs.Records.{sizes_of, scope_of, values_of};
ghost use Rattle.variables.specs.Rules.{fits};
ghost use Rattle.words.specs.Readings.{answered, Agrees};
ghost use Rattle.words.specs.Readers.{text_of, left_of};
ghost use Rattle.wcsp.specs.Rules.{value_rule};
ghost use Rattle.words.specs.Ruled.{number_by};
ghost use Rattle.wcsp.specs.Layouts.{tuple_from};

use variables::refusal::Refusal;
use variables::scope::Scope;
use variables::setting::Setting;
use variables::sizes::Sizes;
use words::fault::Fault;
use words::reader::Reader;

// A value of a domain of this size.
fn value(reader: &mut Reader, size: u8) -> Result<u8, Fault>
    ensures kept { text_of reader.new ≡ text_of reader.old }
    ensures read { answered result (left_of reader.new) ≡ number_by (length (text_of reader.old)) (value_rule size) (left_of reader.old) }
{
    let number = reader.number()?;
    let value = u8::try_from(number.value)
        .ok()
        .filter(|value| *value < size);
    value.ok_or(number.breaks(Refusal::Tuple))
}

// A value for each variable of a scope.
pub(crate) fn tuple(reader: &mut Reader, scope: &Scope, sizes: &Sizes) -> Result<Setting, Fault>
    ensures kept { text_of reader.new ≡ text_of reader.old }
    ensures read { Agrees (tuple_from (length (text_of reader.old)) (sizes_of sizes.now) (scope_of scope.now) [] (left_of reader.old)) result (left_of reader.new)
        (λ s tuple. (fits (sizes_of sizes.now) (scope_of scope.now) tuple ≡ true)
        × ((v : ℕ) → of (values_of s) v ≡ along (scope_of scope.now) tuple v)) }
{
    let variables = scope.variables();
    let mut setting = Setting::empty();
    for v in variables {
        let value = value(reader, sizes.size(*v))?;
        setting.give(*v, value);
    }
    Ok(setting)
}
