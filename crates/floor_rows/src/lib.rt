//! Rows of the daemon's one turn: transcripts of calls with their answers and the entries that they note, each of which the plain program of the
//! whole broker finds legal, random turns beside that program, and data paths over several runs.
//!
//! The crate has nothing but tests. A row is a transcript; one function says whether it holds, and one test names the row and the line that
//! doesn't.
#![tactic(auto)]

#[cfg(test)]
mod answers;
#[cfg(test)]
mod calls;
#[cfg(test)]
mod dice;
#[cfg(test)]
mod done;
#[cfg(test)]
mod entries;
#[cfg(test)]
mod files;
#[cfg(test)]
mod findings;
#[cfg(test)]
mod judged;
#[cfg(test)]
mod outside;
#[cfg(test)]
mod random;
#[cfg(test)]
mod restarts;
#[cfg(test)]
mod rows;
#[cfg(test)]
mod settings;
#[cfg(test)]
mod stage;
#[cfg(test)]
mod stats;
#[cfg(test)]
mod tables;
#[cfg(test)]
mod texts;
#[cfg(test)]
mod trials;
