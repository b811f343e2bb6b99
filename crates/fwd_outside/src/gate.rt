//! A hook by which tests see that threads work side by side.

/// A hook that parallel work on a list calls with the index of each item, directly before the item. With it
/// a test sees which threads meet; the result doesn't depend on it.
pub trait Gate: Sync {
    fn pass(&self, item: u64);
}

/// The gate that does nothing, which the program uses.
#[derive(Clone, Copy, Debug)]
pub struct Open;

impl Gate for Open {
    fn pass(&self, _item: u64) {}
}
