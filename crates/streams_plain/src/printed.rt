use nsq_base::{Bodies, Memory, Topic};
use std::alloc::Global;
use v2_frame::Command;

/// How the commands print, with a comma between.
pub fn commands_text(alloc: Global, commands: &Vec<Command>) -> Result<String, Memory> {
    let mut items = String::new(alloc);
    for command in commands {
        put_item(&mut items, command_text(alloc, command)?.as_str())?;
    }
    Ok(format!(in alloc; "[{items}]")?)
}

/// How the command prints: as Rust prints its variant, with all that stands in it.
pub fn command_text(alloc: Global, command: &Command) -> Result<String, Memory> {
    match command {
        Command::Sub(topic, channel) => {
            let topic = topic_text(alloc, topic)?;
            Ok(format!(in alloc; "Sub({topic}, Chan {{ name: {:?} }})", channel.as_str())?)
        }
        Command::Pub(topic, body) => {
            let topic = topic_text(alloc, topic)?;
            let body = bytes_text(alloc, "Body", body.bytes())?;
            Ok(format!(in alloc; "Pub({topic}, {body})")?)
        }
        Command::Mpub(topic, bodies) => {
            let topic = topic_text(alloc, topic)?;
            let bodies = bodies_text(alloc, bodies)?;
            Ok(format!(in alloc; "Mpub({topic}, Bodies {{ items: [{bodies}] }})")?)
        }
        Command::Dpub(topic, delay, body) => {
            let topic = topic_text(alloc, topic)?;
            let body = bytes_text(alloc, "Body", body.bytes())?;
            Ok(format!(in alloc; "Dpub({topic}, {delay}, {body})")?)
        }
        _ => short_text(alloc, command),
    }
}

// How a command without a topic prints.
fn short_text(alloc: Global, command: &Command) -> Result<String, Memory> {
    match command {
        Command::Identify(body) => {
            let body = bytes_text(alloc, "Body", body.bytes())?;
            Ok(format!(in alloc; "Identify({body})")?)
        }
        Command::Rdy(count) => Ok(format!(in alloc; "Rdy({count})")?),
        Command::Fin(id) => {
            let id = bytes_text(alloc, "MsgId", id.bytes())?;
            Ok(format!(in alloc; "Fin({id})")?)
        }
        Command::Req(id, delay) => {
            let id = bytes_text(alloc, "MsgId", id.bytes())?;
            Ok(format!(in alloc; "Req({id}, {delay})")?)
        }
        Command::Touch(id) => {
            let id = bytes_text(alloc, "MsgId", id.bytes())?;
            Ok(format!(in alloc; "Touch({id})")?)
        }
        Command::Cls => Ok(String::from_str(alloc, "Cls")?),
        _ => Ok(String::from_str(alloc, "Nop")?),
    }
}

// How the topic prints.
fn topic_text(alloc: Global, topic: &Topic) -> Result<String, Memory> {
    Ok(format!(in alloc; "Topic {{ name: {:?} }}", topic.as_str())?)
}

// How the bytes print that a value of this type has.
fn bytes_text(alloc: Global, of: &str, bytes: &[u8]) -> Result<String, Memory> {
    Ok(format!(in alloc; "{of} {{ bytes: {bytes:?} }}")?)
}

// How the bodies print, with a comma between.
fn bodies_text(alloc: Global, bodies: &Bodies) -> Result<String, Memory> {
    let mut items = String::new(alloc);
    for body in bodies.as_slice() {
        put_item(
            &mut items,
            bytes_text(alloc, "Body", body.bytes())?.as_str(),
        )?;
    }
    Ok(items)
}

// Puts an item behind those that are there, with a comma between.
fn put_item(items: &mut String, item: &str) -> Result<(), Memory> {
    if !items.is_empty() {
        items.push_str(", ")?;
    }
    items.push_str(item)?;
    Ok(())
}
