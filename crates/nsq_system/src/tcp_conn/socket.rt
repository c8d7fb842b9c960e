// A stream that doesn't block, but where a send finds the system's buffer full.
ghost use Rattle.std.specs.Prelude.{◌<◌, ◌≤◌, IfOk, length};
ghost use Rattle.std.specs.Io.{WritesAtMost};
ghost use Rattle.nsq_outside.specs.Streams.{IsAmountRead};

use nsq_outside::Read;
use std::io;
use std::io::{ErrorKind, Read as _, Write as _};
use std::net::{Shutdown, TcpStream};
use std::os::fd::{AsRawFd, RawFd};

/// An open stream that doesn't block.
#[derive(Drop)]
pub(super) struct Socket {
    stream: TcpStream,
    // Whether the system didn't let it go back to not blocking. It is good for nothing then.
    stuck: bool,
}

impl Socket {
    pub(super) fn new(stream: TcpStream) -> Socket {
        Socket {
            stream,
            stuck: false,
        }
    }

    /// Its number in the system.
    pub(super) fn descriptor(&self) -> RawFd {
        self.stream.as_raw_fd()
    }

    /// Sends no more, which the peer learns.
    pub(super) fn finish(&self) -> io::Result<()> {
        self.stream.shutdown(Shutdown::Write)
    }

    /// Receives a piece of what has come. An interrupted call is `Nothing`, and every error that isn't for want of bytes is
    /// `Failed`.
    pub(super) fn receive(&self, into: &mut [u8]) -> Read
        requires { 0 < length into.old }
        ensures { IsAmountRead result (length into.old) }
    {
        if self.stuck {
            return Read::Failed;
        }
        match (&self.stream).read(into) {
            Ok(0) => Read::End,
            Ok(count) => Read::Got(count),
            Err(error) => match error.kind() {
                ErrorKind::WouldBlock | ErrorKind::Interrupted => Read::Nothing,
                _ => Read::Failed,
            },
        }
    }

    /// One send that waits, at most for the stream's write timeout.
    fn send_waiting(&mut self, bytes: &[u8]) -> io::Result<usize>
        ensures { WritesAtMost result bytes.now }
    {
        self.stream.set_nonblocking(false)?;
        let sent = self.stream.write(bytes);
        self.stuck = self.stream.set_nonblocking(true).is_err();
        sent
    }
}

impl io::Write for Socket {
    /// One send, that waits only where the system's buffer is full.
    fn write(&mut self, bytes: &[u8]) -> io::Result<usize> {
        if self.stuck {
            return Err(ErrorKind::Other.into());
        }
        match self.stream.write(bytes) {
            Err(error) if error.kind() == ErrorKind::WouldBlock => self.send_waiting(bytes),
            sent => sent,
        }
    }

    fn flush(&mut self) -> io::Result<()> {
        Ok(())
    }
}
