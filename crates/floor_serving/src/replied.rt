ghost use Rattle.std.specs.Prelude.{◌≡◌, Some};
ghost use Rattle.nsq_outside.specs.declared.journal.End.TheVariants as end;
ghost use Rattle.broker_history.specs.Step.{is_done, is_error};
ghost use Rattle.floor_turns.specs.Acting.{answer_to};

use crate::carried::Carried;
use broker_history::{Said, Turned};
use floor_calls::closes;
use nsq_outside::End;
use v2_frame::{Frame, FrameKind};

// Whether a reply is an error.
pub(crate) fn is_error(reply: &Option<Frame>) -> bool
    ensures { result ≡ is_error reply.now }
{
    match reply {
        None => false,
        Some(frame) => matches!(frame.kind, FrameKind::Error),
    }
}

// Whether it is said to be done.
pub(crate) fn is_done(said: &Said) -> bool
    ensures { result ≡ is_done said.now }
{
    matches!(said, Said::Done)
}

// The answer that a reply is, where there is one.
fn answer_to(reply: Option<Frame>) -> Turned
    ensures { result ≡ answer_to reply }
{
    match reply {
        None => Turned::Quiet,
        Some(frame) => {
            let closing = closes(&frame);
            Turned::Reply(frame, closing)
        }
    }
}

// A command was taken with this reply.
pub(crate) fn replied(reply: Option<Frame>) -> Carried
    ensures { result ≡ record { end = end.Done; answer = answer_to reply } }
{
    Carried {
        end: End::Done,
        answer: answer_to(reply),
    }
}

// A disk fault kept a command off, which this frame says.
pub(crate) fn kept_off(frame: Frame) -> Carried
    ensures { result ≡ record { end = end.Faulted 0; answer = answer_to (Some frame) } }
{
    Carried {
        end: End::Faulted(0),
        answer: answer_to(Some(frame)),
    }
}
