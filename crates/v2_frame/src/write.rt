ghost use Rattle.std.specs.Prelude.{◌≡◌, ◌^◌, ◌<◌, ◌++◌, length, OnOk, OnErr};
ghost use Rattle.v2_frame.specs.Command.{size4};
ghost use Rattle.v2_frame.specs.Written.{type_of, frame_bytes};

use crate::append::append_all;
use crate::{Frame, FrameKind};
use nsq_base::Memory;
use std::alloc::Global;

/// Appends the frame: the size of its type and its data, its type, both in 4 bytes with the most significant first, and its
/// data (nsq.io, TCP Protocol Spec). It requires that the data has fewer than 2^31 bytes. Want of memory is the only error:
/// then `out` is as before. Nothing is allocated but the growth of `out`.
pub fn write_frame(_alloc: Global, frame: &Frame, out: &mut Vec<u8>) -> Result<(), Memory>
    requires { length frame.now.body < 2 ^ 31 }
    ensures ok { OnOk result (out.new.items ≡ out.old.items ++ frame_bytes frame.now.kind frame.now.body) }
    ensures err { OnErr result (out.new.items ≡ out.old.items) }
{
    write_frame_of(frame.kind, frame.body.bytes(), out)
}

/// Appends the frame of this type and this text, as `write_frame` does, without a `Frame`.
pub fn write_frame_of(kind: FrameKind, text: &[u8], out: &mut Vec<u8>) -> Result<(), Memory>
    requires { length text.now < 2 ^ 31 }
    ensures ok { OnOk result (out.new.items ≡ out.old.items ++ frame_bytes kind text.now) }
    ensures err { OnErr result (out.new.items ≡ out.old.items) }
{
    let size = size_bytes(4 + text.len());
    let kind = type_number(kind).to_be_bytes();
    append_all(out, &[&size, &kind, text])
}

/// The number of a frame's type.
fn type_number(kind: FrameKind) -> u32
    ensures { result ≡ type_of kind }
{
    match kind {
        FrameKind::Response => 0,
        FrameKind::Error => 1,
        FrameKind::Message => 2,
    }
}

/// A size or a count in 4 bytes, most significant first. It requires that it fits them.
pub fn size_bytes(size: usize) -> [u8; 4]
    requires { size < 2 ^ 32 }
    ensures { result ≡ size4 size }
{
    (size as u32).to_be_bytes()
}
