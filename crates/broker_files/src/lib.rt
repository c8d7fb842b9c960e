//! The plain program from a folder to a broker's state and back: the state that a run starts from, whether all that a run left was found,
//! and the text of the file of names. What an opening finds, and how the text is read, is the plain program of the queues' history.
#![tactic(auto)]

mod growing;
mod left;
mod starting;
mod text;

pub use left::{is_all_left, kept_names};
pub use path_plain::{
    Finding, FoundChannel, FoundNames, FoundTopic, KeptChannel, KeptNames, KeptTopic, found,
    read_names,
};
pub use starting::start;
pub use text::names_text;
