//! What follows from the definitions of the V2 stream (`v2_frame`), as laws: of verdicts and scripts there is always one and only one, what a
//! reader gives is the script of all that was fed, whatever the pieces were, and messages of equal bytes are equal but for their delays.
//! Each function's contract is a law, and its body is empty. Rows stand on it, no program does.
#![tactic(auto)]

pub mod laws;
pub mod message_laws;
pub mod reader_laws;
