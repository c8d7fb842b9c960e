//! Rows of the whole program over a host in memory: its words, a folder, a clock and callers go in; its status, what it told and printed, every byte
//! that each caller got, and the folder's files come out. Some rows are several runs over one folder, and some runs are random. What each run noted, what it
//! found and what it left is judged by the plain programs. Beside them stand rows of the program's command lines, of its drills, and of a run of it over the
//! real machine.
//!
//! The crate has nothing but tests. A row is a list of runs, a command line or a drill; one function says what differs in it, and one test names the row
//! that doesn't hold.
#![tactic(auto)]

#[cfg(test)]
mod dice;
#[cfg(test)]
mod drills;
#[cfg(test)]
mod exchanges;
#[cfg(test)]
mod files;
#[cfg(test)]
mod host;
#[cfg(test)]
mod hosts;
#[cfg(test)]
mod judged;
#[cfg(test)]
mod random;
#[cfg(test)]
mod rows;
#[cfg(test)]
mod setting;
#[cfg(test)]
mod tables;
#[cfg(test)]
mod texts;
#[cfg(test)]
mod words;
