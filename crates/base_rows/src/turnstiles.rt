//! The turnstile, over a list of pairs of a number and a value.

mod own;
mod pairs;
mod scripts;
mod threads;
