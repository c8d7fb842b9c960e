ghost use Rattle.std.specs.Prelude.{◌≡◌, IfOk};

use nsq_base::{Body, Memory};
use std::alloc::Global;

/// What a frame carries. On the wire it is a number of 4 bytes, most significant first.
#[derive(Clone, Copy, PartialEq)]
pub enum FrameKind {
    /// The reply to a command, or a heartbeat: type 0.
    Response,
    /// The text of an error: type 1.
    Error,
    /// A message: type 2.
    Message,
}

/// What a daemon sends to a client (nsq.io, TCP Protocol Spec): a size of 4 bytes, a type of 4 bytes, both most significant
/// first, and the data. The size counts the type and the data.
#[derive(Drop)]
pub struct Frame {
    /// The frame's type.
    pub kind: FrameKind,
    /// The frame's data.
    pub body: Body,
}

impl Frame {
    /// A frame that equals this one. Want of memory is the only error.
    pub fn copy(&self, alloc: Global) -> Result<Frame, Memory>
        ensures { IfOk result (λ frame. frame ≡ self.now) }
    {
        let body = Body::copy(alloc, self.body.bytes())?;
        Ok(Frame {
            kind: self.kind,
            body,
        })
    }
}
