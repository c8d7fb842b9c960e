ghost use Rattle.std.specs.Prelude.{◌≡◌, ◌-◌, ◌^◌, ◌<◌, ◌≤◌, List, ℕ, Bool, IsTrue, length};
ghost use Rattle.nsq_outside.specs.Streams.{IsAmountRead, Reads, KeepsBuffer, EndsWith, ReadFails, IsAmountWritten, Writes, WriteFails};

use std::sync::Wait;

/// The answer of a read.
#[derive(Clone, Copy, PartialEq)]
pub enum Read {
    /// A piece of so many bytes, at least one, stands at the start of the buffer.
    Got(usize),
    /// Nothing has come yet.
    Nothing,
    /// No byte will come any more.
    End,
    /// The stream failed, and its count of read faults rose in this call.
    Failed,
}

/// A stream of bytes that comes in pieces.
pub trait Source {
    /// Whether values of this type tell their content.
    ghost tells_pieces: { Bool };

    /// The pieces that were read, in order.
    ghost pieces: { Self → List (List ℕ) };

    /// The bytes that are still to come.
    ghost left: { Self → List ℕ };

    /// Whether a read answered that no byte will come any more.
    ghost ended: { Self → Bool };

    /// How often a read failed. It never falls.
    ghost read_faults: { Self → ℕ };

    /// Which values a read may lead to.
    ghost may_read: { Self → Self → Type 0 };

    /// Reads a piece into the start of `into`. It may wait. After `End` it answers `End` again.
    ///
    /// A type that tells its content leaves the rest of the buffer, and after any other answer than `Got` all of it, as it
    /// was. Of any other type these bytes may be any.
    fn read<R: Wait>(&mut self, rt: &R, into: &mut [u8]) -> Read
        requires { 0 < length into.old }
        ensures amount { IsAmountRead result (length into.old) }
        ensures told { IsTrue tells_pieces → Reads (pieces self.old) (left self.old) (pieces self.new) (left self.new) into.new result }
        ensures buffer { IsTrue tells_pieces → KeepsBuffer into.old into.new result }
        ensures end { EndsWith (ended self.old) (ended self.new) result }
        ensures may { may_read self.old self.new }
        ensures faults { read_faults self.old ≤ read_faults self.new }
        ensures cause { ReadFails (read_faults self.old) (read_faults self.new) result };

    /// The count of read faults is at most 2^64 - 1.
    ghost read_faults_fit: { (source : Self) → read_faults source ≤ 2 ^ 64 - 1 };
}

/// The answer of a write.
#[derive(Clone, Copy, PartialEq)]
pub enum Write {
    /// So many bytes from the front were taken, at least one.
    Took(usize),
    /// No byte was taken, and the count of write faults rose in this call.
    Failed,
}

/// A stream that takes bytes.
pub trait Sink {
    /// Whether values of this type tell their content.
    ghost tells_written: { Bool };

    /// The bytes that were taken, in order.
    ghost written: { Self → List ℕ };

    /// How often a write failed. It never falls.
    ghost write_faults: { Self → ℕ };

    /// Which values a write may lead to.
    ghost may_write: { Self → Self → Type 0 };

    /// Writes bytes from the front of `from`. It may wait.
    fn write<R: Wait>(&mut self, rt: &R, from: &[u8]) -> Write
        requires { 0 < length from.now }
        ensures amount { IsAmountWritten result (length from.now) }
        ensures told { IsTrue tells_written → Writes (written self.old) (written self.new) from.now result }
        ensures may { may_write self.old self.new }
        ensures faults { write_faults self.old ≤ write_faults self.new }
        ensures cause { WriteFails (write_faults self.old) (write_faults self.new) result };

    /// The count of write faults is at most 2^64 - 1.
    ghost write_faults_fit: { (sink : Self) → write_faults sink ≤ 2 ^ 64 - 1 };
}

/// A connection, which may move between threads. Reading writes nothing and writing reads nothing: callers see that from
/// `get` and `put`. But a read may find that bytes taken earlier couldn't be sent, and then raises the count of write faults too.
pub trait Conn: Source + Sink + Send {
    ghost read_keeps: { (a b : Self) → Self.may_read a b → (Self.written b ≡ Self.written a) × (Self.write_faults a ≤ Self.write_faults b) };

    ghost write_keeps: { (a b : Self) → Self.may_write a b → (Self.pieces b ≡ Self.pieces a) × (Self.left b ≡ Self.left a) × (Self.ended b ≡ Self.ended a) × (Self.read_faults a ≤ Self.read_faults b) };
}

/// Reads a piece of a connection, as `Source::read`, and writes nothing.
pub fn get<R: Wait, K: Conn>(rt: &R, conn: &mut K, into: &mut [u8]) -> Read
    requires { 0 < length into.old }
    ensures amount { IsAmountRead result (length into.old) }
    ensures told { IsTrue K.tells_pieces → Reads (K.pieces conn.old) (K.left conn.old) (K.pieces conn.new) (K.left conn.new) into.new result }
    ensures buffer { IsTrue K.tells_pieces → KeepsBuffer into.old into.new result }
    ensures end { EndsWith (K.ended conn.old) (K.ended conn.new) result }
    ensures faults { K.read_faults conn.old ≤ K.read_faults conn.new }
    ensures cause { ReadFails (K.read_faults conn.old) (K.read_faults conn.new) result }
    ensures written { K.written conn.new ≡ K.written conn.old }
    ensures write_faults { K.write_faults conn.old ≤ K.write_faults conn.new }
{
    conn.read(rt, into)
}

/// Writes to a connection, as `Sink::write`, and reads nothing.
pub fn put<R: Wait, K: Conn>(rt: &R, conn: &mut K, from: &[u8]) -> Write
    requires { 0 < length from.now }
    ensures amount { IsAmountWritten result (length from.now) }
    ensures told { IsTrue K.tells_written → Writes (K.written conn.old) (K.written conn.new) from.now result }
    ensures faults { K.write_faults conn.old ≤ K.write_faults conn.new }
    ensures cause { WriteFails (K.write_faults conn.old) (K.write_faults conn.new) result }
    ensures pieces { K.pieces conn.new ≡ K.pieces conn.old }
    ensures left { K.left conn.new ≡ K.left conn.old }
    ensures ended { K.ended conn.new ≡ K.ended conn.old }
    ensures read_faults { K.read_faults conn.old ≤ K.read_faults conn.new }
{
    conn.write(rt, from)
}
