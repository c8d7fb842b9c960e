/// What the heap knows of an item: enough to compare it, and where it is kept.
#[derive(Clone, Copy)]
pub(crate) struct Node {
    pub(crate) due: u64,
    pub(crate) number: u64,
    pub(crate) slot: usize,
}
