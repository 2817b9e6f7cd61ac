// The two cells before the tables.

// The limit that prepare was given.
pub(crate) const LIMIT: usize = 0;
// The cost that a setting has to be cheaper than.
pub(crate) const BAR: usize = 1;
