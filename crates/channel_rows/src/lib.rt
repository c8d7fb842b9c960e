//! Rows of channels: worked examples of their calls, and random calls beside plain lists. It has nothing but tests.
#![tactic(auto)]

#[cfg(test)]
mod broker;
#[cfg(test)]
mod calls;
#[cfg(test)]
mod dice;
#[cfg(test)]
mod memory;
#[cfg(test)]
mod plain;
#[cfg(test)]
mod random;
#[cfg(test)]
mod runs;
#[cfg(test)]
mod script;
#[cfg(test)]
mod sending;
#[cfg(test)]
mod stage;
#[cfg(test)]
mod storing;
#[cfg(test)]
mod words;
