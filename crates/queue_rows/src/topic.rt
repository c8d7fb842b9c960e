//! Rows of a topic's queue: worked examples of its calls, and random calls beside a plain list. It has nothing but tests.

mod bench;
mod plain;
mod random;
mod script;
mod wanting;
