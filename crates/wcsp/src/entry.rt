// The functions of a text, entered into a job's shape.
ghost use Rattle.std.specs.Prelude.{◌≡◌, ◌+◌, ◌<◌, ◌≤◌, true, [], length};
ghost use Rattle.problems.specs.Outlines.{outline, entered};
ghost use Rattle.variables.specs.Assignments.{cells};
ghost use Rattle.variables.specs.Records.{scope_of};
ghost use Rattle.variables.specs.Rules.{proper};
ghost use Rattle.wcsp.specs.declared.tables.Pass.TheVariants.{Checking};
ghost use Rattle.words.specs.Readings.{Agrees};
ghost use Rattle.words.specs.Readers.{text_of, left_of};
ghost use Rattle.wcsp.specs.Rules.{room_rule};
ghost use Rattle.words.specs.Ruled.{number_by};
ghost use Rattle.wcsp.specs.Layouts.{entry, entries_from};
ghost use Rattle.wcsp.specs.Passes.{by_pass};
ghost use Rattle.wcsp.specs.Tables.{laid, table_of};
ghost use Rattle.wcsp.specs.Described.{entered_all, tables};

use crate::listing::table;
use crate::scopes::scoped;
use crate::tables::Pass;
use problems::shape::Shape;
use variables::scope::Scope;
use words::fault::Fault;
use words::reader::Reader;

// The usual cost of a function, which is entered if there is room for its table.
fn usual(reader: &mut Reader, scope: &Scope, shape: &mut Shape, room: usize) -> Result<u32, Fault>
    requires proper { proper (length (outline shape.old).sizes) (scope_of scope.now) ≡ true }
    requires few { length (outline shape.old).functions < 64 }
    requires small { room ≤ 16384 }
    ensures kept { text_of reader.new ≡ text_of reader.old }
    ensures read { Agrees (number_by (length (text_of reader.old)) (room_rule room (outline shape.old).used (cells (outline shape.old).sizes (scope_of scope.now))) (left_of reader.old)) result (left_of reader.new)
        (λ n usual. (n ≡ usual) × (outline shape.new ≡ entered (outline shape.old) (scope_of scope.now))) }
{
    let number = reader.number()?;
    // Not a map_err: after it the proof no longer finds which row of the table refused.
    match shape.enter(scope.variables(), room) {
        Ok(_) => Ok(number.value),
        Err(why) => Err(number.breaks(why)),
    }
}

// One function: its scope, its usual cost and its listed tuples; its table lies behind those that stand.
fn entry(reader: &mut Reader, shape: &mut Shape, area: &mut [u32], pass: Pass) -> Result<(), Fault>
    requires few { length (outline shape.old).functions < 64 }
    requires small { length area.old ≤ 16384 }
    ensures kept { text_of reader.new ≡ text_of reader.old }
    ensures checked { pass ≡ Checking → area.new ≡ area.old }
    ensures read { Agrees (entry (length (text_of reader.old)) (length area.old) (outline shape.old).sizes (outline shape.old).used (left_of reader.old)) result (left_of reader.new)
        (λ _ e. (outline shape.new ≡ entered (outline shape.old) e.scope)
        × (area.new ≡ by_pass pass area.old (laid area.old (outline shape.old).used (table_of (outline shape.old).sizes e)))) }
{
    let sizes = shape.sizes();
    let start = shape.used();
    let scope = scoped(reader, &sizes)?;
    let usual = usual(reader, &scope, shape, area.len())?;
    let end = shape.used();
    table(reader, &scope, &sizes, usual, &mut area[start..end], pass)
}

// So many functions.
pub(crate) fn entries(
    reader: &mut Reader,
    count: u32,
    shape: &mut Shape,
    area: &mut [u32],
    pass: Pass,
) -> Result<(), Fault>
    requires few { length (outline shape.old).functions + count ≤ 64 }
    requires small { length area.old ≤ 16384 }
    requires used { (outline shape.old).used ≤ length area.old }
    ensures kept { text_of reader.new ≡ text_of reader.old }
    ensures checked { pass ≡ Checking → area.new ≡ area.old }
    ensures read { Agrees (entries_from (length (text_of reader.old)) (length area.old) (outline shape.old).sizes count (outline shape.old).used [] (left_of reader.old)) result (left_of reader.new)
        (λ _ es. (outline shape.new ≡ entered_all (outline shape.old) es)
        × (area.new ≡ by_pass pass area.old (laid area.old (outline shape.old).used (tables (outline shape.old).sizes es)))) }
{
    for _k in 0..count {
        entry(reader, shape, area, pass)?;
    }
    Ok(())
}
