/// How a conversation with a client ended.
#[derive(Clone, Copy)]
pub enum Ended {
    /// The client sent no more.
    EndOfInput,
    /// After an answer that closes, a silence, a deletion, or because the daemon had stopped.
    Closed,
    /// A read failed.
    ReadFault,
    /// A write failed.
    WriteFault,
    /// Want of memory.
    Memory,
}
