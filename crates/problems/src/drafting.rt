// How a shape comes about: opened with sizes, functions entered one by one, then put in order.
ghost use Rattle.std.specs.Prelude.{◌≡◌, ◌≤◌, [], map, length};
ghost use Rattle.problems.specs.Outlines.{outline, opened, entered, ordered, entering, amending, cell_of};
ghost use Rattle.std.specs.Option.{option_map};
ghost use Rattle.variables.specs.Records.{sizes_of};
ghost use Rattle.problems.specs.Records.{placed_of, nth};
ghost use Rattle.variables.specs.Refusals.{Answers, first_of};
ghost use Rattle.variables.specs.Rules.{sizes_rows, order_rows};

use crate::functions::{FunctionRecord, no_functions};
use crate::records::MOST_CELLS;
use crate::shape::Shape;
use variables::order::Order;
use variables::refusal::Refusal;
use variables::scope::Scope;
use variables::sizes::Sizes;

// The cells before the first table: the limit's and the best cost's.
const FIRST_TABLE: usize = 2;

impl Shape {
    // No variables and no functions.
    pub fn none() -> Shape
        ensures { outline result ≡ opened [] }
    {
        Shape::sized(Sizes::none())
    }

    // Variables of these domain sizes, and no functions yet.
    pub fn of(sizes: &[u8]) -> Result<Shape, Refusal>
        ensures { Answers (first_of (sizes_rows sizes.now)) result (λ s. outline s ≡ opened sizes.now) (Unit {0}) }
    {
        let sizes = Sizes::of(sizes)?;
        Ok(Shape::sized(sizes))
    }

    pub fn sized(sizes: Sizes) -> Shape
        ensures { outline result ≡ opened (sizes_of sizes) }
    {
        Shape {
            sizes,
            order: Order::none(),
            functions: no_functions(FunctionRecord::entered(Scope::none(), 0)),
            used: FIRST_TABLE,
        }
    }

    // One function more, its table behind the others in an area of `room` cells; answers its number.
    pub fn enter(&mut self, scope: &[u8], room: usize) -> Result<usize, Refusal>
        ensures { Answers (first_of (entering (outline self.old) room scope.now)) result
            (λ k. (k ≡ length (outline self.old).functions) × (outline self.new ≡ entered (outline self.old) scope.now))
            (self.new ≡ self.old) }
    {
        let shape = *self;
        let scope = Scope::of(scope, &shape.sizes)?;
        let number = shape.functions.len();
        let mut functions = shape.functions;
        let Ok(()) = functions.push(FunctionRecord::entered(scope, shape.used)) else {
            return Err(Refusal::Functions);
        };
        let end = shape.used + scope.table_cells(&shape.sizes);
        if end > room.min(MOST_CELLS) {
            return Err(Refusal::Room);
        }
        *self = Shape {
            sizes: shape.sizes,
            order: shape.order,
            functions,
            used: end,
        };
        Ok(number)
    }

    // The cell of the area that holds a function's cost at a tuple.
    pub fn cell(&self, function: usize, tuple: &[u8]) -> Result<usize, Refusal>
        ensures { Answers (first_of (amending (outline self.now) function tuple.now)) result
            (λ k. k ≡ cell_of (outline self.now) function tuple.now) (Unit {0}) }
    {
        let Some(record) = self.function(function) else {
            return Err(Refusal::Function);
        };
        let Some(setting) = record.scope.setting(tuple, &self.sizes) else {
            return Err(Refusal::Tuple);
        };
        Ok(record.start + record.scope.cell(&self.sizes, &setting))
    }

    // The order in which the variables are given values.
    pub fn arrange(&mut self, order: &[u8]) -> Result<(), Refusal>
        ensures { Answers (first_of (order_rows (length (outline self.old).sizes) order.now)) result
            (λ _. outline self.new ≡ ordered (outline self.old) order.now)
            (self.new ≡ self.old) }
    {
        let shape = *self;
        let order = Order::of(order, &shape.sizes)?;
        *self = Shape {
            sizes: shape.sizes,
            order,
            functions: shape.functions,
            used: shape.used,
        };
        Ok(())
    }

    pub fn sizes(&self) -> Sizes
        ensures { result ≡ self.now.sizes }
    {
        self.sizes
    }

    pub fn order(&self) -> Order
        ensures { result ≡ self.now.order }
    {
        self.order
    }

    // The sizes, not copied.
    pub fn domains(&self) -> &Sizes
        ensures { result.now ≡ self.now.sizes }
    {
        &self.sizes
    }

    // The order, not copied.
    pub fn along(&self) -> &Order
        ensures { result.now ≡ self.now.order }
    {
        &self.order
    }

    pub fn function_count(&self) -> usize
        ensures count { result ≡ length (outline self.now).functions }
        ensures few { result ≤ 64 }
    {
        self.functions.len()
    }

    // The records of the functions in the order of their numbers.
    pub fn functions(&self) -> &[FunctionRecord]
        ensures all { map placed_of result.now ≡ (outline self.now).functions }
        ensures few { length result.now ≤ 64 }
    {
        self.functions.as_slice()
    }

    // The record of a function by its number.
    pub fn function(&self, number: usize) -> Option<FunctionRecord>
        ensures { option_map placed_of result ≡ nth (outline self.now).functions number }
    {
        self.functions().get(number).copied()
    }

    // The cells up to the tables' end.
    pub fn used(&self) -> usize
        ensures { result ≡ (outline self.now).used }
    {
        self.used
    }
}
