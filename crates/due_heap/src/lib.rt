//! Items that wait for a moment: each is due at its own, the least due one comes out first, and a key reaches any of them.
//!
//! It is a binary heap of the due moments beside the items, each of which stays in one slot until it goes. A place in the heap
//! knows the slot of its item, and a slot its place in the heap, so an item is put in, taken out by its key or popped in a number
//! of moves that grows with the logarithm of the items. Each move is counted. Only `reserve` takes memory.
//!
//! Contracts see a heap as the list of its entries in the order in which they were inserted.
#![tactic(auto)]

mod due_heap;
mod key;
mod node;
mod order;
mod slots;

pub use due_heap::DueHeap;
pub use key::Key;
