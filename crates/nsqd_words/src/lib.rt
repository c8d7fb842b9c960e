//! The words of the command line of `nsqd`, read into what they ask for.
//!
//! `specs/Requests.antt` says what words ask for: of words that aren't a drill, over `clap`'s own functions of the words.
#![tactic(auto)]

mod command;
mod durations;
mod laws;
mod numbers;
mod options;
mod reading;
mod request;

pub use durations::{TimeUnit, read_duration};
pub use laws::{
    options_are_known, options_are_one, other_requests_are_known, plain_words_say_their_values,
    refusals_are_one, requests_exclude_each_other, unknown_words_are_unknown,
};
pub use numbers::read_number;
pub use reading::read_words;
pub use request::Request;
