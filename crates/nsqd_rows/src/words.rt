//! Rows of command lines, and of what each asks for, as tables. There is nothing here but tests.

mod drills;
mod durations;
mod held;
mod made;
mod numbers;
mod others;
mod tables;
mod texts;
mod told;
