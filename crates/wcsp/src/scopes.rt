// The scope of a function in a text.
ghost use Rattle.std.specs.Prelude.{◌≡◌, ◌<◌, ◌≤◌, true, [], ◌∷◌, ◌++◌, length};
ghost use Rattle.variables.specs.Records.{sizes_of, scope_of};
ghost use Rattle.variables.specs.Rules.{proper};
ghost use Rattle.words.specs.Readings.{Agrees};
ghost use Rattle.words.specs.Readers.{text_of, left_of};
ghost use Rattle.wcsp.specs.Rules.{variable_rule};
ghost use Rattle.words.specs.Ruled.{number_by};
ghost use Rattle.wcsp.specs.Layouts.{scope_from, scoped};

use variables::refusal::Refusal;
use variables::scope::Scope;
use variables::sizes::Sizes;
use words::fault::Fault;
use words::reader::Reader;

// One variable more of a scope.
fn variable(reader: &mut Reader, scope: &mut Scope, sizes: &Sizes) -> Result<(), Fault>
    requires { length (scope_of scope.old) < 5 }
    ensures kept { text_of reader.new ≡ text_of reader.old }
    ensures read { Agrees (number_by (length (text_of reader.old)) (variable_rule (length (sizes_of sizes.now)) (scope_of scope.old)) (left_of reader.old)) result (left_of reader.new)
        (λ _ v. scope_of scope.new ≡ scope_of scope.old ++ v ∷ []) }
{
    let number = reader.number()?;
    let variable = u8::try_from(number.value).map_err(|_| number.breaks(Refusal::Scope))?;
    scope
        .push(variable, sizes)
        .map_err(|why| number.breaks(why))
}

// As many variables as the arity says.
// Not a try_for_each: of what its closure changed, the reader and the scope, a proof knows nothing afterwards.
fn scope(reader: &mut Reader, arity: u32, sizes: &Sizes) -> Result<Scope, Fault>
    requires { arity ≤ 5 }
    ensures kept { text_of reader.new ≡ text_of reader.old }
    ensures read { Agrees (scope_from (length (text_of reader.old)) (length (sizes_of sizes.now)) arity [] (left_of reader.old)) result (left_of reader.new)
        (λ s scope. (scope_of s ≡ scope) × (proper (length (sizes_of sizes.now)) scope ≡ true)) }
{
    let mut scope = Scope::none();
    for _k in 0..arity {
        variable(reader, &mut scope, sizes)?;
    }
    Ok(scope)
}

// The arity, and the variables.
pub(crate) fn scoped(reader: &mut Reader, sizes: &Sizes) -> Result<Scope, Fault>
    ensures kept { text_of reader.new ≡ text_of reader.old }
    ensures read { Agrees (scoped (length (text_of reader.old)) (length (sizes_of sizes.now)) (left_of reader.old)) result (left_of reader.new)
        (λ s scope. (scope_of s ≡ scope) × (proper (length (sizes_of sizes.now)) scope ≡ true)) }
{
    let arity = reader.up_to(5, Refusal::Scope)?;
    scope(reader, arity, sizes)
}
