//! Rows of the system's files and clock.

mod clock;
mod disk;
mod folder;
