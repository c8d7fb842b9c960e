//! Requests and what they are by themselves.

mod batches;
mod delays;
mod names;
mod requests;
mod routes;
mod said;
mod tables;
