//! Error frames of NSQ's TCP protocol.
ghost use Rattle.std.specs.Prelude.{◌≡◌, ◌≤◌, ◌↔◌, IsTrue, length};
ghost use Rattle.nsq_system.specs.Frames.{EndsInError, number_at};

/// The bytes at the start of a frame that say how long it is.
const SIZE_LEN: usize = 4;

/// The bytes after the size that say what type a frame has.
const TYPE_LEN: usize = 4;

/// The type of an error frame.
const ERROR_FRAME: u32 = 1;

/// Whether these bytes are frames of the TCP protocol, the last of which is an error frame. A frame is 4 bytes of its
/// size, most significant first, and so many bytes: 4 of its type, and its data (NSQ's TCP protocol page, "Data Format").
pub fn ends_with_error_frame(bytes: &[u8]) -> bool
    ensures ends { EndsInError bytes.now → IsTrue result }
    ensures only { IsTrue result → EndsInError bytes.now }
{
    let mut rest = bytes;
    while let Some((front, frame)) = rest.split_first_chunk::<SIZE_LEN>() {
        let size = u32::from_be_bytes(*front) as usize;
        if frame.len() < size {
            return false;
        }
        if frame.len() == size {
            return is_error(frame);
        }
        rest = &frame[size..];
    }
    false
}

/// Whether a frame, without its size, is an error frame.
fn is_error(frame: &[u8]) -> bool
    ensures { IsTrue result ↔ (4 ≤ length frame.now) × (number_at frame.now ≡ 1) }
{
    match frame.split_first_chunk::<TYPE_LEN>() {
        Some((kind, _)) => u32::from_be_bytes(*kind) == ERROR_FRAME,
        None => false,
    }
}
