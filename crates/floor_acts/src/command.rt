ghost use Rattle.std.specs.Prelude.{◌≡◌, ◌≤◌, if◌then◌else◌, false, length, IfOk, Some, None};
ghost use Rattle.std.specs.Result.{result_map_both};
ghost use Rattle.broker_history.specs.State.{is_fresh};
ghost use Rattle.broker_history.specs.Identify.{identity_of};
ghost use Rattle.broker_history.specs.Reply.{disk_fault, disk_reply, flight_reply, identified, wrong_state};
ghost use Rattle.broker_history.specs.Step.{is_error};
ghost use Rattle.floor_rooms.specs.Sound.{IsSound};
ghost use Rattle.floor_acts.specs.Replies.{IsShort, KnowsOf, RepliesTo, SaysOf, flies_in, reply_in};

use crate::finding::flies;
use crate::frames::{error, wrong_state};
use crate::replies::{
    batch_reply, close_reply, delayed_reply, flight_reply, publish_reply, ready_reply,
    subscribe_reply,
};
use floor_rooms::{Client, Hall};
use negotiation::{Identity, identify_reply, read_identity};
use nsq_base::{Memory, MsgId, Options};
use std::alloc::Global;
use v2_frame::{Command, Frame};

/// A reply to a command, or none; and where the command is an IDENTIFY that is accepted, what it said.
#[derive(Drop)]
pub struct Replied {
    /// The reply.
    pub reply: Option<Frame>,
    /// What the client said of itself.
    pub said: Option<Identity>,
}

/// The reply to a command of this client, by the first cause that holds. Want of memory is the only error.
pub fn reply_to(
    hall: &Hall,
    alloc: Global,
    client: &Client,
    command: &Command,
) -> Result<Replied, Memory>
    requires { IsSound hall.now }
    ensures value { IfOk result (λ r. r.reply ≡ reply_in hall.now client.now command.now) }
    ensures told { IfOk result (λ r. RepliesTo hall.now client.now command.now r.reply) }
    ensures said { IfOk result (λ r. KnowsOf hall.now.options command.now r.reply r.said) }
    ensures short { IfOk result (λ r. IsShort r.reply) }
{
    Ok(answer(hall, alloc, client, command)?)
}

// The same, by what the hall has.
fn answer(hall: &Hall, alloc: Global, client: &Client, command: &Command) -> Result<Replied, Memory>
    requires { IsSound hall.now }
    ensures value { IfOk result (λ r. r.reply ≡ reply_in hall.now client.now command.now) }
    ensures said { IfOk result (λ r. KnowsOf hall.now.options command.now r.reply r.said) }
    ensures short { IfOk result (λ r. IsShort r.reply) }
{
    let used = hall.ids_used;
    match command {
        Command::Identify(body) => introduce(alloc, &hall.options, client, body.bytes()),
        Command::Sub(_, _) => certain(subscribe_reply(alloc, client)),
        Command::Pub(_, _) => certain(publish_reply(alloc, used, b"E_PUB_FAILED", 1)),
        Command::Mpub(_, bodies) => certain(batch_reply(alloc, used, bodies)),
        Command::Dpub(_, delay, _) => certain(delayed_reply(alloc, &hall.options, used, *delay)),
        Command::Rdy(count) => perhaps(ready_reply(alloc, &hall.options, client, *count)),
        Command::Fin(id) => message_reply(hall, alloc, client, b"E_FIN_FAILED", *id),
        Command::Req(id, _) => message_reply(hall, alloc, client, b"E_REQ_FAILED", *id),
        Command::Touch(id) => message_reply(hall, alloc, client, b"E_TOUCH_FAILED", *id),
        Command::Cls => certain(close_reply(alloc, client)),
        Command::Nop => Ok(plain(None)),
    }
}

// The reply to a command on a message of this id.
fn message_reply(
    hall: &Hall,
    alloc: Global,
    client: &Client,
    word: &[u8],
    id: MsgId,
) -> Result<Replied, Memory>
    requires sound { IsSound hall.now }
    requires word { length word.now ≤ 100 }
    ensures value { IfOk result (λ r. r.reply ≡ flight_reply client.now.phase word.now (flies_in hall.now client.now id)) }
    ensures said { IfOk result (λ r. r.said ≡ None) }
    ensures short { IfOk result (λ r. IsShort r.reply) }
{
    let flies = flies(hall, client, id);
    perhaps(flight_reply(alloc, client, word, flies))
}

/// The reply to a command that a disk fault kept from being carried out; None for those that never write to disk. Want of memory is the only
/// error.
pub fn disk_reply(alloc: Global, command: &Command) -> Result<Option<Frame>, Memory>
    ensures value { IfOk result (λ reply. reply ≡ disk_reply command.now) }
    ensures short { IfOk result IsShort }
{
    match command {
        Command::Pub(_, _) => disk_error(alloc, b"E_PUB_FAILED"),
        Command::Mpub(_, _) => disk_error(alloc, b"E_MPUB_FAILED"),
        Command::Dpub(_, _, _) => disk_error(alloc, b"E_DPUB_FAILED"),
        Command::Req(_, _) => disk_error(alloc, b"E_REQ_FAILED"),
        Command::Identify(_) => Ok(None),
        Command::Sub(_, _) => Ok(None),
        Command::Rdy(_) => Ok(None),
        Command::Fin(_) => Ok(None),
        Command::Touch(_) => Ok(None),
        Command::Cls => Ok(None),
        Command::Nop => Ok(None),
    }
}

// The error of a command that a disk fault kept from being carried out.
fn disk_error(alloc: Global, word: &[u8]) -> Result<Option<Frame>, Memory>
    requires { length word.now ≤ 100 }
    ensures value { IfOk result (λ reply. reply ≡ Some (disk_fault word.now)) }
    ensures short { IfOk result IsShort }
{
    Ok(Some(error(alloc, word, b" disk fault")?))
}

// A reply to a command that isn't an IDENTIFY: a frame, one that may be none, and as it is.
fn certain(frame: Result<Frame, Memory>) -> Result<Replied, Memory>
    ensures { result ≡ result_map_both (λ frame. record { reply = Some frame; said = None }) (λ why. why) frame }
{
    Ok(plain(Some(frame?)))
}

fn perhaps(reply: Result<Option<Frame>, Memory>) -> Result<Replied, Memory>
    ensures { result ≡ result_map_both (λ reply. record { reply = reply; said = None }) (λ why. why) reply }
{
    Ok(plain(reply?))
}

fn plain(reply: Option<Frame>) -> Replied
    ensures { result ≡ record { reply = reply; said = None } }
{
    Replied { reply, said: None }
}

// The reply to IDENTIFY, with what it said.
fn introduce(
    alloc: Global,
    options: &Options,
    client: &Client,
    body: &[u8],
) -> Result<Replied, Memory>
    ensures value { IfOk result (λ r. r.reply ≡ Some (if is_fresh client.now.phase then identified options.now (identity_of options.now body.now) else wrong_state)) }
    ensures said { IfOk result (λ r. is_error r.reply ≡ false → SaysOf options.now body.now r.said) }
    ensures short { IfOk result (λ r. IsShort r.reply) }
{
    if !client.is_fresh() {
        return Ok(plain(Some(wrong_state(alloc)?)));
    }
    let said = read_identity(alloc, options, body)?;
    let frame = identify_reply(alloc, options, said.as_ref())?;
    Ok(Replied {
        reply: Some(frame),
        said,
    })
}
