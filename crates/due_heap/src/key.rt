/// Names an item of a heap from its insertion until it is taken out.
///
/// Up to the heap's 2^64-th insertion no key is given twice.
#[derive(Clone, Copy, PartialEq)]
pub struct Key {
    /// Where the item is kept.
    pub(crate) slot: usize,
    /// How many insertions were made before that of the item.
    pub(crate) number: u64,
}
