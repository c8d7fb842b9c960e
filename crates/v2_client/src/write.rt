ghost use Rattle.std.specs.Prelude.{◌≡◌, ◌^◌, ◌<◌, [], ◌∷◌, ◌++◌, length, flat_map, OnOk, OnErr};
ghost use Rattle.nsq_base.specs.Name.{IsName};
ghost use Rattle.v2_frame.specs.Heading.{Pub, Dpub, Rdy, Req};
ghost use Rattle.v2_frame.specs.Command.{sized, canonical, canonical_line, content_of};
ghost use Rattle.v2_client.specs.Writing.{CanWrite, IsSpelled, batch_bytes};

use itoa::Buffer;
use nsq_base::{Bodies, Body, Memory, MsgId, Topic};
use std::alloc::Global;
use v2_frame::{Command, append_all, size_bytes};

/// Appends the canonical spelling of the command: the words parted by single spaces, numbers without leading zeros, `RDY`
/// always with its number, and a line feed; behind it the body's size in 4 bytes, most significant first, and the body. The
/// size of an `MPUB` is that of all that follows it: the count of its bodies, and each body behind its size.
///
/// It requires that no body is empty, that an `MPUB` has at least one, that the size behind the line is below 2^31, that
/// numbers have at most 18 digits, and that an id has no space and no byte of a line end. Want of memory is the only error:
/// then `out` is as before. Nothing is allocated but the growth of `out`.
pub fn write_command(_alloc: Global, command: &Command, out: &mut Vec<u8>) -> Result<(), Memory>
    requires { CanWrite command.now }
    ensures ok { OnOk result (out.new.items ≡ out.old.items ++ canonical command.now) }
    ensures spelled { IsSpelled (canonical command.now) command.now }
    ensures err { OnErr result (out.new.items ≡ out.old.items) }
{
    match command {
        Command::Identify(body) => {
            let body = body.bytes();
            append_all(out, &[b"IDENTIFY\n", &size_bytes(body.len()), body])
        }
        Command::Sub(topic, channel) => write_two(b"SUB ", topic.bytes(), channel.bytes(), out),
        Command::Pub(topic, body) => write_pub(topic, body, out),
        Command::Mpub(topic, bodies) => write_batch(topic, bodies, out),
        Command::Dpub(topic, delay, body) => write_dpub(topic, *delay, body, out),
        Command::Rdy(count) => write_rdy(*count, out),
        Command::Fin(id) => write_one(b"FIN ", id.bytes(), out),
        Command::Req(id, delay) => write_req(id, *delay, out),
        Command::Touch(id) => write_one(b"TOUCH ", id.bytes(), out),
        Command::Cls => append_all(out, &[b"CLS\n"]),
        Command::Nop => append_all(out, &[b"NOP\n"]),
    }
}

/// Appends a line of a word, which ends with its space, and what stands behind that. After Memory `out` is as before.
fn write_one(word: &[u8], text: &[u8], out: &mut Vec<u8>) -> Result<(), Memory>
    ensures ok { OnOk result (out.new.items ≡ out.old.items ++ (word.now ++ (text.now ++ 10 ∷ []))) }
    ensures err { OnErr result (out.new.items ≡ out.old.items) }
{
    append_all(out, &[word, text, b"\n"])
}

/// The same, where two words stand behind the first.
fn write_two(word: &[u8], one: &[u8], other: &[u8], out: &mut Vec<u8>) -> Result<(), Memory>
    ensures ok { OnOk result (out.new.items ≡ out.old.items ++ (word.now ++ (one.now ++ 32 ∷ (other.now ++ 10 ∷ [])))) }
    ensures err { OnErr result (out.new.items ≡ out.old.items) }
{
    append_all(out, &[word, one, b" ", other, b"\n"])
}

/// Appends an `RDY`. After Memory `out` is as before.
fn write_rdy(count: i64, out: &mut Vec<u8>) -> Result<(), Memory>
    ensures ok { OnOk result (out.new.items ≡ out.old.items ++ (canonical_line (Rdy count) ++ 10 ∷ [])) }
    ensures err { OnErr result (out.new.items ≡ out.old.items) }
{
    let mut number = Buffer::new();
    write_one(b"RDY ", number.format(count).as_bytes(), out)
}

/// Appends a `REQ`. After Memory `out` is as before.
fn write_req(id: &MsgId, delay: i64, out: &mut Vec<u8>) -> Result<(), Memory>
    ensures long { length id.now ≡ 16 }
    ensures ok { OnOk result (out.new.items ≡ out.old.items ++ (canonical_line (Req id.now delay) ++ 10 ∷ [])) }
    ensures err { OnErr result (out.new.items ≡ out.old.items) }
{
    let mut number = Buffer::new();
    write_two(b"REQ ", id.bytes(), number.format(delay).as_bytes(), out)
}

/// Appends a `PUB`. After Memory `out` is as before.
fn write_pub(topic: &Topic, body: &Body, out: &mut Vec<u8>) -> Result<(), Memory>
    requires { length body.now < 2 ^ 31 }
    ensures named { IsName topic.now }
    ensures ok { OnOk result (out.new.items ≡ out.old.items ++ (canonical_line (Pub topic.now) ++ 10 ∷ sized body.now)) }
    ensures err { OnErr result (out.new.items ≡ out.old.items) }
{
    let body = body.bytes();
    let size = size_bytes(body.len());
    append_all(out, &[b"PUB ", topic.bytes(), b"\n", &size, body])
}

/// Appends a `DPUB`. After Memory `out` is as before.
fn write_dpub(topic: &Topic, delay: i64, body: &Body, out: &mut Vec<u8>) -> Result<(), Memory>
    requires { length body.now < 2 ^ 31 }
    ensures named { IsName topic.now }
    ensures ok { OnOk result (out.new.items ≡ out.old.items ++ (canonical_line (Dpub topic.now delay) ++ 10 ∷ sized body.now)) }
    ensures err { OnErr result (out.new.items ≡ out.old.items) }
{
    let mut number = Buffer::new();
    let delay = number.format(delay).as_bytes();
    let body = body.bytes();
    let size = size_bytes(body.len());
    append_all(
        out,
        &[b"DPUB ", topic.bytes(), b" ", delay, b"\n", &size, body],
    )
}

/// Appends an `MPUB`. After Memory `out` is as before.
fn write_batch(topic: &Topic, bodies: &Bodies, out: &mut Vec<u8>) -> Result<(), Memory>
    requires { length (content_of bodies.now) < 2 ^ 31 }
    ensures named { IsName topic.now }
    ensures ok { OnOk result (out.new.items ≡ out.old.items ++ batch_bytes topic.now bodies.now) }
    ensures err { OnErr result (out.new.items ≡ out.old.items) }
{
    let before = out.len();
    let size = content_size(bodies);
    let count = bodies.count();
    let name = topic.bytes();
    out.reserve(10 + name.len() + size)?;
    append_all(
        out,
        &[b"MPUB ", name, b"\n", &size_bytes(size), &size_bytes(count)],
    )?;
    if append_bodies(bodies, out).is_err() {
        out.truncate(before);
        return Err(Memory);
    }
    Ok(())
}

/// Appends each body behind its size. After Memory `out` is as before.
fn append_bodies(bodies: &Bodies, out: &mut Vec<u8>) -> Result<(), Memory>
    requires { length (content_of bodies.now) < 2 ^ 31 }
    ensures ok { OnOk result (out.new.items ≡ out.old.items ++ flat_map sized bodies.now) }
    ensures err { OnErr result (out.new.items ≡ out.old.items) }
{
    let before = out.len();
    'bodies: for i in 0..bodies.count() {
        let body = bodies.get(i).bytes();
        if append_all(out, &[&size_bytes(body.len()), body]).is_err() {
            out.truncate(before);
            return Err(Memory);
        }
    }
    Ok(())
}

/// The size of what stands behind the size of an `MPUB`: a count, and each body behind its size.
fn content_size(bodies: &Bodies) -> usize
    requires { length (content_of bodies.now) < 2 ^ 31 }
    ensures { result ≡ length (content_of bodies.now) }
{
    let mut size = 4;
    'bodies: for i in 0..bodies.count() {
        size += 4 + bodies.get(i).bytes().len();
    }
    size
}
