// Which variables a prefix gives, by their places along the order.
ghost use Rattle.std.specs.Prelude.{◌≡◌, ℕ, ◌<◌, slice_index};
ghost use Rattle.variables.specs.Lists.{has};
ghost use Rattle.variables.specs.Records.{order_of};
ghost use Rattle.floors.specs.ByNumber.{place_from};
ghost use Rattle.floors.specs.Sources.{given_of};

use crate::buckets::place;
use crate::plain::{Given, Places};
use std::array;
use variables::order::Order;
use variables::sizes::MOST_VARIABLES;

impl Places<MOST_VARIABLES> {
    // The places of variables.
    pub(crate) fn of_variables(order: &Order) -> Places<MOST_VARIABLES>
        ensures { (v : ℕ) → v < 32 → slice_index result.places v ≡ place_from 1 (order_of order.now) v }
    {
        Places {
            places: array::from_fn(|v| place(order, v as u8)),
        }
    }
}

impl Given {
    // Whether a variable is given.
    pub(crate) fn has(&self, variable: u8) -> bool
        ensures { result ≡ has (given_of self.now) variable }
    {
        let slot = variable as usize;
        slot < self.places.places.len() && self.places.places[slot] as usize <= self.len
    }
}
