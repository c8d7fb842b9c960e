//! Rows of a V2 connection's service: what comes in, what its desk answers, and what goes out, over a connection in memory and over the outbox of one over TCP.
//!
//! Each is a table of rows, a function that says whether a row holds, and a loop that names the row that doesn't.

mod breaks;
mod cuts;
mod gathered;
mod letters;
mod lines;
mod rows;
mod served;
