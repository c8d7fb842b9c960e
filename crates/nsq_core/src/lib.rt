//! What even the lowest crates speak of: the error for want of memory, and the grammars of names (`specs/Name.antt`) and of decimal
//! numbers (`specs/Decimal.antt`). `nsq_base` passes all of it on.
//!
//! It stands apart so that what reads and writes files needs nothing else of names, ids, bodies and options.
#![tactic(auto)]

mod memory;

pub use memory::Memory;
