// The plain record of a list, and what a full one answers.
ghost use Rattle.std.specs.Prelude.{◌≡◌, ◌≤◌, length, ⊤};

use std::alloc::AllocError;

// A list of at most N items that lie in the record itself: the first `len` slots.
#[derive(Copy)]
pub struct ShortList<T, const N: usize> {
    pub(crate) slots: [T; N],
    pub(crate) len: usize,
    ghost long: { length slots ≡ N },
    ghost few: { len ≤ N },
}

// Not a derive: none is made for a generic struct with a ghost field.
impl<T: Copy, const N: usize> Clone for ShortList<T, N> {
    ghost is_clone = { λ x y. y ≡ x };

    ghost is_infallible = { λ _. ⊤ };

    fn clone(&self) -> Result<Self, AllocError> {
        Ok(*self)
    }
}

// There is no slot for one item more.
#[derive(Clone, Copy, PartialEq, Eq, Debug)]
pub struct Full {}
