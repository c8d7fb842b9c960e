//! HTTP: requests and answers on the wire, what each request asks for, and the text of the statistics.

mod answers;
mod arguments;
mod bodies;
mod calls;
mod lengths;
mod limits;
mod lines;
mod pieces;
mod requests;
mod starts;
mod stats;
mod tables;
mod targets;
