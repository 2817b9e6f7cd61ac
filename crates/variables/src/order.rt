// The order in which variables are given values.
ghost use Rattle.std.specs.Prelude.{◌≡◌, [], ◌∷◌, ◌++◌, length};
ghost use Rattle.variables.specs.Records.{sizes_of, order_of};
ghost use Rattle.variables.specs.Refusals.{Answers, first_of};
ghost use Rattle.variables.specs.Rules.{order_rows, next_rows};

use crate::listing::lists;
pub use crate::plain::Order;
use crate::refusal::Refusal;
use crate::sizes::Sizes;
use lists::ShortList;

impl Order {
    pub fn none() -> Order
        ensures { order_of result ≡ [] }
    {
        Order {
            variables: ShortList::none(0),
        }
    }

    // An order names each variable once.
    pub fn of(variables: &[u8], sizes: &Sizes) -> Result<Order, Refusal>
        ensures { Answers (first_of (order_rows (length (sizes_of sizes.now)) variables.now)) result
            (λ o. order_of o ≡ variables.now) (Unit {0}) }
    {
        if variables.len() != sizes.len() {
            return Err(Refusal::Order);
        }
        let mut order = Order::none();
        for variable in variables {
            order.push(*variable, sizes)?;
        }
        Ok(order)
    }

    // One variable more, if it is known and new.
    fn push(&mut self, variable: u8, sizes: &Sizes) -> Result<(), Refusal>
        ensures { Answers (first_of (next_rows (length (sizes_of sizes.now)) (order_of self.old) variable)) result
            (λ _. order_of self.new ≡ order_of self.old ++ variable ∷ [])
            (self.new ≡ self.old) }
    {
        if variable as usize >= sizes.len() || lists(self.variables(), variable) {
            return Err(Refusal::Order);
        }
        let mut variables = self.variables;
        let Ok(()) = variables.push(variable) else {
            return Err(Refusal::Order);
        };
        *self = Order { variables };
        Ok(())
    }

    // The variables along the order.
    pub fn variables(&self) -> &[u8]
        ensures { result.now ≡ order_of self.now }
    {
        self.variables.as_slice()
    }
}
