//! Rows of V2 and of HTTP connections: what each client sends, what it is answered, and every byte that is written to it. Served at a floor over fakes, to
//! the moment, and over a V2 connection's service alone, at a floor that answers by a script.
//!
//! The crate has nothing but tests. A row at a floor is a text of steps; one function says which of them goes otherwise, and one test names it.
#![tactic(auto)]

#[cfg(test)]
mod answers;
#[cfg(test)]
mod bench;
#[cfg(test)]
mod callers;
#[cfg(test)]
mod conn;
#[cfg(test)]
mod floor;
#[cfg(test)]
mod lists;
#[cfg(test)]
mod rows;
#[cfg(test)]
mod scripts;
#[cfg(test)]
mod session;
#[cfg(test)]
mod tables;
#[cfg(test)]
mod text;
