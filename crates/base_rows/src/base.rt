//! What the plain values and the heap of due items answer.

mod heap;
mod lists;
mod many_calls;
mod options;
mod texts;
mod topics;
