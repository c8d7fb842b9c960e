//! Callers of HTTP beside clients, by subject.

pub mod faults;
pub mod pauses;
pub mod publishes;
pub mod stops;
