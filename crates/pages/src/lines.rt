// The page that the program prints, and its lines.
ghost use Rattle.std.specs.Prelude.{◌≡◌, ◌++◌, [], length, if◌then◌else◌, nat_lt, codes, OnOk, IfSome};
ghost use Rattle.costs.specs.Kinds.{sum};
ghost use Rattle.costs.specs.Structures.{cheaper};
ghost use Rattle.problems.specs.Outlines.{outline};
ghost use Rattle.pages.specs.Lines.{spaced_text, job_line, order_line, bucket_line, message_line, bottom_line, function_line, verdict_line};

use costs::Cost;
use problems::shape::Shape;
use std::alloc::AllocError;
use std::fmt;
use std::fmt::{Display, Formatter};
use std::io::Write;

// Numbers with a blank between two.
#[derive(Drop)]
struct Spaced<'a, T>(&'a [T]);

impl<T: Display> Display for Spaced<'_, T> {
    ghost output = { λ s. spaced_text T.output 0 s.0.now };

    fn fmt<W: fmt::Write>(&self, f: &mut Formatter<W>) -> fmt::Result {
        for (k, n) in self.0.iter().enumerate() {
            let gap = gap_before(k);
            write!(f, "{gap}{n}")?;
        }
        Ok(())
    }
}

// What stands before item k of a list: a blank, but not before the first.
fn gap_before(k: usize) -> &'static str
    ensures { result.now ≡ (if nat_lt 0 k then codes " " else []) }
{
    if k > 0 { " " } else { "" }
}

// On which side of the upper bound a cost lies.
fn side(cost: u32, upper: u32) -> &'static str
    ensures { result.now ≡ (if cheaper sum cost upper then codes "below" else codes "not below") }
{
    if cost.is_cheaper(upper) {
        "below"
    } else {
        "not below"
    }
}

// What is to be printed. Each line is put behind what it holds.
#[derive(Drop)]
pub struct Page {
    pub bytes: Vec<u8>,
}

impl Page {
    // What `write!` and `writeln!` call: only memory can be wanting.
    fn write_fmt<D: Display + Drop>(&mut self, text: D) -> Result<(), AllocError>
        ensures { OnOk result (IfSome (D.output text) (λ bytes. self.new.bytes.items ≡ self.old.bytes.items ++ bytes)) }
    {
        self.bytes.write_fmt(text).map_err(|_| AllocError)
    }

    // job NAME: N variables, M functions, U of A cells
    pub fn job_line(&mut self, name: &[u8], shape: &Shape, cells: usize) -> Result<(), AllocError>
        ensures { OnOk result (self.new.bytes.items ≡ self.old.bytes.items ++ job_line name.now
            (length (outline shape.now).sizes) (length (outline shape.now).functions) (outline shape.now).used cells) }
    {
        let variables = shape.sizes().len();
        let functions = shape.function_count();
        let used = shape.used();
        write!(self, "job ")?;
        self.bytes.extend_from_slice(name)?;
        writeln!(
            self,
            ": {variables} variables, {functions} functions, {used} of {cells} cells"
        )
    }

    // function K (V V V): C
    pub(crate) fn function_line(
        &mut self,
        k: usize,
        scope: &[u8],
        cost: u32,
    ) -> Result<(), AllocError>
        ensures { OnOk result (self.new.bytes.items ≡ self.old.bytes.items ++ function_line k scope.now cost) }
    {
        writeln!(self, "function {k} ({}): {cost}", Spaced(scope))
    }

    // cost: C, below the upper bound U, or not below it
    pub(crate) fn verdict_line(&mut self, cost: u32, upper: u32) -> Result<(), AllocError>
        ensures { OnOk result (self.new.bytes.items ≡ self.old.bytes.items ++ verdict_line cost upper) }
    {
        let how = side(cost, upper);
        writeln!(self, "cost: {cost}, {how} the upper bound {upper}")
    }

    // order: V V V
    pub fn order_line(&mut self, order: &[u8]) -> Result<(), AllocError>
        ensures { OnOk result (self.new.bytes.items ≡ self.old.bytes.items ++ order_line order.now) }
    {
        writeln!(self, "order: {}", Spaced(order))
    }

    // source: mini-bucket W, R cells
    pub fn bucket_line(&mut self, width: u8, cells: usize) -> Result<(), AllocError>
        ensures { OnOk result (self.new.bytes.items ≡ self.old.bytes.items ++ bucket_line width cells) }
    {
        writeln!(self, "source: mini-bucket {width}, {cells} cells")
    }

    // message K (V V V) from bucket P: C C C C
    pub fn message_line(
        &mut self,
        k: usize,
        scope: &[u8],
        bucket: u8,
        cells: &[u32],
    ) -> Result<(), AllocError>
        ensures { OnOk result (self.new.bytes.items ≡ self.old.bytes.items ++ message_line k scope.now bucket cells.now) }
    {
        let scope = Spaced(scope);
        let cells = Spaced(cells);
        writeln!(self, "message {k} ({scope}) from bucket {bucket}: {cells}")
    }

    // bottom: B
    pub fn bottom_line(&mut self, bottom: u32) -> Result<(), AllocError>
        ensures { OnOk result (self.new.bytes.items ≡ self.old.bytes.items ++ bottom_line bottom) }
    {
        writeln!(self, "bottom: {bottom}")
    }
}
