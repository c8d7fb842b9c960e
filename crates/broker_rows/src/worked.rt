//! Worked examples of the broker, each checked both as a history and as conversations: its entries, with their moments, are legal from the
//! start that an opening gives, and the entries of each of its connections are a conversation with the pieces that the client sent and the
//! bytes that it got. Beside them stand wrong ones, which are refused.

mod channels;
mod credit;
mod moments;
mod rows;
mod turns;
