use itoa::Buffer;
use nsq_base::Memory;
use path_plain::{KeptChannel, KeptNames, KeptTopic};
use std::alloc::Global;

/// The text of the file of names, `nsqd.dat`: an object in JSON without spaces, its members in byte order; a name needs no escape. Want
/// of memory is the only error. It has no contract: it is a second reading of the definitions by hand.
pub fn names_text(alloc: Global, kept: &KeptNames) -> Result<Vec<u8>, Memory> {
    let mut text = Vec::new(alloc);
    put_names(&mut text, kept)?;
    Ok(text)
}

// Adds what the file keeps.
fn put_names(text: &mut Vec<u8>, kept: &KeptNames) -> Result<(), Memory> {
    put_front(text, kept.epoch)?;
    put_topics(text, &kept.topics)?;
    put(text, br#"],"version":"1.0.0"}"#)
}

// Adds what stands before the topics.
fn put_front(text: &mut Vec<u8>, epoch: u32) -> Result<(), Memory> {
    put(text, br#"{"id_epoch":"#)?;
    put_number(text, epoch)?;
    put(text, br#","topics":["#)
}

// Adds topics.
fn put_topics(text: &mut Vec<u8>, topics: &[KeptTopic]) -> Result<(), Memory> {
    let mut later = false;
    for topic in topics {
        put_topic(text, later, topic)?;
        later = true;
    }
    Ok(())
}

// Adds a topic, the first or a later one.
fn put_topic(text: &mut Vec<u8>, later: bool, topic: &KeptTopic) -> Result<(), Memory> {
    put(text, topic_front(later))?;
    put_channels(text, &topic.channels)?;
    put_end(text, br#"],"name":""#, topic.name.bytes(), topic.paused)
}

// What stands before a topic's channels.
fn topic_front(later: bool) -> &'static [u8] {
    if later {
        br#",{"channels":["#
    } else {
        br#"{"channels":["#
    }
}

// Adds channels.
fn put_channels(text: &mut Vec<u8>, channels: &[KeptChannel]) -> Result<(), Memory> {
    let mut later = false;
    for channel in channels {
        put_end(
            text,
            channel_front(later),
            channel.name.bytes(),
            channel.paused,
        )?;
        later = true;
    }
    Ok(())
}

// What stands before a channel's name.
fn channel_front(later: bool) -> &'static [u8] {
    if later {
        br#",{"name":""#
    } else {
        br#"{"name":""#
    }
}

// Adds the end of a topic or a channel behind its front: its name, and whether it is paused.
fn put_end(text: &mut Vec<u8>, front: &[u8], name: &[u8], paused: bool) -> Result<(), Memory> {
    put(text, front)?;
    put(text, name)?;
    put(text, end_text(paused))
}

// What stands behind a name.
fn end_text(paused: bool) -> &'static [u8] {
    if paused {
        br#"","paused":true}"#
    } else {
        br#"","paused":false}"#
    }
}

// Adds a number.
fn put_number(text: &mut Vec<u8>, number: u32) -> Result<(), Memory> {
    let mut digits = Buffer::new();
    put(text, digits.format(number).as_bytes())
}

// Adds a text.
fn put(text: &mut Vec<u8>, more: &[u8]) -> Result<(), Memory> {
    text.extend_from_slice(more)?;
    Ok(())
}
