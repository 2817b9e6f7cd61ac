// How a list comes about: empty at first, and one item more at a time.
ghost use Rattle.std.specs.Prelude.{◌≡◌, ◌<◌, ◌≤◌, ◌↔◌, [], ◌∷◌, ◌++◌, length, IsOk, OnOk, OnErr};
ghost use Rattle.lists.specs.Lists.{items_of};

use crate::plain::{Full, ShortList};

impl<T: Copy, const N: usize> ShortList<T, N> {
    // No items; the blank stands in the slots until they are used.
    pub fn none(blank: T) -> ShortList<T, N>
        ensures { items_of result ≡ [] }
    {
        ShortList {
            slots: [blank; N],
            len: 0,
        }
    }

    pub fn len(&self) -> usize
        ensures count { result ≡ length (items_of self.now) }
        ensures few { result ≤ N }
    {
        self.len
    }

    // The items in their order.
    pub fn as_slice(&self) -> &[T]
        ensures items { result.now ≡ items_of self.now }
        ensures few { length result.now ≤ N }
    {
        let len = self.len;
        &self.slots[..len]
    }

    // One item more, if there is a slot for it.
    pub fn push(&mut self, item: T) -> Result<(), Full>
        ensures room { IsOk result ↔ (length (items_of self.old) < N) }
        ensures added { OnOk result (items_of self.new ≡ items_of self.old ++ item ∷ []) }
        ensures full { OnErr result (self.new ≡ self.old) }
    {
        let len = self.len;
        if len == N {
            return Err(Full {});
        }
        self.slots[len] = item;
        self.len = len + 1;
        Ok(())
    }
}
