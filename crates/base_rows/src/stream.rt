//! The V2 stream: its readers, the plain program and the writers.

mod frames_read;
mod frames_written;
mod laws;
mod messages;
mod pieces;
mod reads;
mod streams;
mod written;
