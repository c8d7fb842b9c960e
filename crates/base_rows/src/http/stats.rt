//! The statistics: what is told of a daemon, and its text in JSON to the byte.

mod held;
mod told;
