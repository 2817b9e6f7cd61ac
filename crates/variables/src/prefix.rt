// Values for the first variables of an order, one more or one less at a time.
ghost use Rattle.std.specs.Prelude.{◌≡◌, ℕ, ◌&&◌, length, is_some, MatchBool, MatchOption, nat_le, nat_lt};
ghost use Rattle.variables.specs.Assignments.{of};
ghost use Rattle.variables.specs.Records.{order_of, values_of, Longer, Shorter};

use crate::order::Order;
pub use crate::plain::Prefix;
use crate::setting::Setting;

impl Prefix {
    pub fn empty() -> Prefix
        ensures values { (v : ℕ) → of (values_of result.setting) v ≡ 0 }
        ensures len { result.len ≡ 0 }
    {
        Prefix {
            setting: Setting::empty(),
            len: 0,
        }
    }

    // How many variables have a value.
    pub fn len(&self) -> usize
        ensures { result ≡ self.now.len }
    {
        self.len
    }

    // The values by variable number.
    pub fn setting(&self) -> Setting
        ensures { result ≡ self.now.setting }
    {
        self.setting
    }

    // The same, not copied.
    pub fn values(&self) -> &Setting
        ensures { result.now ≡ self.now.setting }
    {
        &self.setting
    }

    // A value for the next variable of the order; false, and nothing changed, where all have one.
    pub fn push(&mut self, order: &Order, value: u8) -> bool
        ensures more { result ≡ nat_lt self.old.len (length (order_of order.now)) }
        ensures after { MatchBool result (Longer order.now self.old self.new value) (self.new ≡ self.old) }
    {
        let len = self.len;
        let variables = order.variables();
        if len >= variables.len() {
            return false;
        }
        let Prefix {
            setting,
            len: given,
            ..
        } = self;
        setting.give(variables[len], value);
        *given = len + 1;
        true
    }

    // Takes the last value away, and answers it; the variable is then 0.
    pub fn pop(&mut self, order: &Order) -> Option<u8>
        ensures some { is_some result ≡ (nat_lt 0 self.old.len && nat_le self.old.len (length (order_of order.now))) }
        ensures after { MatchOption result (self.new ≡ self.old) (Shorter order.now self.old self.new) }
    {
        let len = self.len;
        let variables = order.variables();
        if len == 0 || len > variables.len() {
            return None;
        }
        let variable = variables[len - 1];
        let Prefix {
            setting,
            len: given,
            ..
        } = self;
        let value = setting.value(variable);
        setting.give(variable, 0);
        *given = len - 1;
        Some(value)
    }
}
