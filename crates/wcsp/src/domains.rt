// The domain sizes of a text.
ghost use Rattle.std.specs.Prelude.{◌≡◌, ◌<◌, ◌≤◌, [], ◌∷◌, ◌++◌, length};
ghost use Rattle.variables.specs.Records.{sizes_of};
ghost use Rattle.words.specs.Readings.{Agrees};
ghost use Rattle.words.specs.Readers.{text_of, left_of};
ghost use Rattle.wcsp.specs.Rules.{size_rule};
ghost use Rattle.words.specs.Ruled.{number_by};
ghost use Rattle.wcsp.specs.Layouts.{sizes_from};

use variables::refusal::Refusal;
use variables::sizes::Sizes;
use words::fault::{Fault, Flaw};
use words::reader::Reader;

// One domain size more.
fn size(reader: &mut Reader, largest: u32, sizes: &mut Sizes) -> Result<(), Fault>
    requires { length (sizes_of sizes.old) < 32 }
    ensures kept { text_of reader.new ≡ text_of reader.old }
    ensures read { Agrees (number_by (length (text_of reader.old)) (size_rule largest) (left_of reader.old)) result (left_of reader.new)
        (λ _ size. sizes_of sizes.new ≡ sizes_of sizes.old ++ size ∷ []) }
{
    let number = reader.number()?;
    let size = u8::try_from(number.value).map_err(|_| number.breaks(Refusal::Size))?;
    sizes.push(size).map_err(|why| number.breaks(why))?;
    if number.value > largest {
        return Err(Flaw::AboveMaximum.at(number.at));
    }
    Ok(())
}

// A domain size for each variable.
pub(crate) fn sizes(reader: &mut Reader, count: u32, largest: u32) -> Result<Sizes, Fault>
    requires { count ≤ 32 }
    ensures kept { text_of reader.new ≡ text_of reader.old }
    ensures read { Agrees (sizes_from (length (text_of reader.old)) largest count [] (left_of reader.old)) result (left_of reader.new)
        (λ s sizes. sizes_of s ≡ sizes) }
{
    let mut sizes = Sizes::none();
    for _v in 0..count {
        size(reader, largest, &mut sizes)?;
    }
    Ok(sizes)
}
