// The listed tuples of a function in a text.
ghost use Rattle.std.specs.Prelude.{◌≡◌, [], length};
ghost use Rattle.variables.specs.Assignments.{cells};
ghost use Rattle.variables.specs.Records.{sizes_of, scope_of};
ghost use Rattle.wcsp.specs.declared.tables.Pass.TheVariants.{Checking};
ghost use Rattle.words.specs.Readings.{Agrees};
ghost use Rattle.words.specs.Readers.{text_of, left_of};
ghost use Rattle.wcsp.specs.Layouts.{listing, listed_from, listings};
ghost use Rattle.wcsp.specs.Passes.{by_pass};
ghost use Rattle.wcsp.specs.Tables.{amend, amended, table_of};

use crate::tables::Pass;
use crate::tuples::tuple;
use variables::scope::Scope;
use variables::sizes::Sizes;
use words::fault::Fault;
use words::reader::Reader;

// One tuple, and its cost into its cell of the function's table.
// Not a struct of scope and sizes: what they are asked (a cell, a variable's size) takes the two apart again.
fn listing(
    reader: &mut Reader,
    scope: &Scope,
    sizes: &Sizes,
    table: &mut [u32],
    pass: Pass,
) -> Result<(), Fault>
    requires { length table.old ≡ cells (sizes_of sizes.now) (scope_of scope.now) }
    ensures kept { text_of reader.new ≡ text_of reader.old }
    ensures checked { pass ≡ Checking → table.new ≡ table.old }
    ensures read { Agrees (listing (length (text_of reader.old)) (sizes_of sizes.now) (scope_of scope.now) (left_of reader.old)) result (left_of reader.new)
        (λ _ one. table.new ≡ by_pass pass table.old (amend (sizes_of sizes.now) (scope_of scope.now) table.old one)) }
{
    let setting = tuple(reader, scope, sizes)?;
    let cost = reader.figure()?;
    let cell = scope.cell(sizes, &setting);
    pass.put(table, cell, cost);
    Ok(())
}

// So many tuples.
fn listed(
    reader: &mut Reader,
    count: u32,
    scope: &Scope,
    sizes: &Sizes,
    table: &mut [u32],
    pass: Pass,
) -> Result<(), Fault>
    requires { length table.old ≡ cells (sizes_of sizes.now) (scope_of scope.now) }
    ensures kept { text_of reader.new ≡ text_of reader.old }
    ensures checked { pass ≡ Checking → table.new ≡ table.old }
    ensures read { Agrees (listed_from (length (text_of reader.old)) (sizes_of sizes.now) (scope_of scope.now) count [] (left_of reader.old)) result (left_of reader.new)
        (λ _ ls. table.new ≡ by_pass pass table.old (amended (sizes_of sizes.now) (scope_of scope.now) table.old ls)) }
{
    for _k in 0..count {
        listing(reader, scope, sizes, table, pass)?;
    }
    Ok(())
}

// The whole table of a function: the usual cost, and the listed ones.
pub(crate) fn table(
    reader: &mut Reader,
    scope: &Scope,
    sizes: &Sizes,
    usual: u32,
    table: &mut [u32],
    pass: Pass,
) -> Result<(), Fault>
    requires { length table.old ≡ cells (sizes_of sizes.now) (scope_of scope.now) }
    ensures kept { text_of reader.new ≡ text_of reader.old }
    ensures checked { pass ≡ Checking → table.new ≡ table.old }
    ensures read { Agrees (listings (length (text_of reader.old)) (sizes_of sizes.now) (scope_of scope.entry.now) (left_of reader.old)) result (left_of reader.new)
        (λ _ ls. table.new ≡ by_pass pass table.old (table_of (sizes_of sizes.now) (record { scope = scope_of scope.entry.now; usual = usual; listed = ls }))) }
{
    let count = reader.figure()?;
    pass.begin(table, usual);
    listed(reader, count, scope, sizes, table, pass)
}
