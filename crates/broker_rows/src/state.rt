//! Rows of one state of the broker, as tables over the plain program: what is said and told of it over HTTP, what a stop leaves of it, what
//! its file of names has, and what the next run starts from. There is nothing here but tests.

pub mod given;
mod names;
mod restarts;
mod said;
mod statistics;
