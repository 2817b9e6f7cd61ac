// What a search remembers between visits.
use variables::prefix::Prefix;
use variables::setting::Setting;

// Where a search is: the prefix, the value to try next, and the best full setting so far, if there is one.
#[derive(Clone, Copy)]
pub struct Place {
    pub(crate) prefix: Prefix,
    pub(crate) next: u8,
    pub(crate) incumbent: Option<Setting>,
}

// A search on its way: where it is, and the cost that the next setting has to be cheaper than.
#[derive(Clone, Copy)]
pub struct Search<C> {
    pub place: Place,
    pub bar: C,
}
