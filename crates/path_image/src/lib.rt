//! What the files of a daemon's data path show: the file of its durable names (`specs/Data.antt`), and what an opening finds in it
//! and in the queues that it lists (`specs/Found.antt`).
//!
//! `laws` has what follows from the definitions alone. The crate `path_plain` computes them, slowly, for tests.
#![tactic(auto)]

pub mod laws;
