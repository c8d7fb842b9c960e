ghost use Rattle.std.specs.Prelude.{◌≡◌, ◌+◌, ◌≤◌, ◌<◌, ◌^◌, length, take};
ghost use Rattle.v2_frame.specs.Messages.{FitsItsBytes};
ghost use Rattle.v2_frame.specs.Written.{message_bytes};
ghost use Rattle.backlog.specs.Seen.{FitsLimit, size_of};

use v2_frame::Message;

// Writes a message to the front of `scratch`, as the record that it is on disk, and returns how many bytes that has.
pub(crate) fn write_record(message: &Message, scratch: &mut [u8]) -> usize
    requires short { FitsLimit message.now }
    requires scratch { 16777242 ≤ length scratch.old }
    ensures fits { FitsItsBytes message.now }
    ensures size { result ≡ size_of message.now }
    ensures within { result ≤ length scratch.new }
    ensures bytes { take result scratch.new ≡ message_bytes message.now }
    ensures same { length scratch.new ≡ length scratch.old }
{
    // What the types promise: that the numbers fit their bytes, and that an id has 16.
    numbers_fit(message.stamp, message.attempts);
    let _id = message.id.bytes();
    message.put(scratch)
}

// What the types of a message's numbers say of them. It does nothing.
fn numbers_fit(stamp: u64, attempts: u16)
    ensures stamp { stamp < 2 ^ 64 }
    ensures attempts { attempts < 2 ^ 16 }
{}
