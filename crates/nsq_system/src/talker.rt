ghost use Rattle.std.specs.Prelude.{◌+◌, ◌<◌, ◌≤◌, ℕ, length};
ghost use Rattle.nsq_outside.specs.Streams.{IsAmountRead};

use nsq_outside::Read;

/// The most bytes that one read drops.
const PIECE: usize = 16384;

/// How often a peer is read from at most, so that at most 64 MiB are dropped.
const MOST_READS: u32 = 4096;

/// How often a peer is waited for at most: 2 s.
const MOST_WAITS: u32 = 2000;

/// After so many waits without a byte between them a peer is silent: 200 ms.
const SILENCE: u32 = 200;

/// A peer that may still send, though nobody wants its bytes.
pub trait Talker {
    /// How often it was read from, where the type tells that.
    ghost reads: { Self → ℕ };

    /// How often it was waited for, where the type tells that.
    ghost waits: { Self → ℕ };

    /// Reads a piece of what has come into the start of `into`. It doesn't wait.
    fn read(&mut self, into: &mut [u8]) -> Read
        requires { 0 < length into.old }
        ensures amount { IsAmountRead result (length into.old) }
        ensures reads { reads self.new ≤ reads self.old + 1 }
        ensures waits { waits self.new ≤ waits self.old };

    /// Waits a millisecond, also where bytes come.
    fn wait(&mut self)
        ensures reads { reads self.new ≤ reads self.old }
        ensures waits { waits self.new ≤ waits self.old + 1 };
}

/// Drops what a peer still sends, until it ends or fails, is silent for 200 waits, or was read from 4,096 times or waited for
/// 2,000 times.
pub fn hear_out<T: Talker>(peer: &mut T)
    ensures reads { T.reads peer.new ≤ T.reads peer.old + 4096 }
    ensures waits { T.waits peer.new ≤ T.waits peer.old + 2000 }
{
    let mut waste = [0u8; PIECE];
    let mut reads = 0;
    let mut waits = 0;
    let mut silence = 0;
    'reads: while reads < MOST_READS {
        reads += 1;
        match peer.read(&mut waste) {
            Read::Got(_) => silence = 0,
            Read::Nothing if waits < MOST_WAITS && silence < SILENCE => {
                waits += 1;
                silence += 1;
                peer.wait();
            }
            Read::Nothing | Read::End | Read::Failed => return,
        }
    }
}
