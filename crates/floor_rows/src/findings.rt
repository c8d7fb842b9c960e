//! What is found in files, as text.

use crate::judged::{finding_of, let_go};
use crate::texts::{put, put_count, put_flag, put_sent, put_word, same};
use broker_files::{Finding, FoundNames, FoundTopic};
use path_plain::NamedFile;
use std::alloc::Global;
use std::process::Abort;
use v2_frame::Message;

/// What is found in files: the epoch, a line for the messages of each queue in order, and the statistics that a floor over it has. Where an opening is
/// refused all of it is empty.
#[derive(Drop)]
pub struct Listing {
    pub epoch: u32,
    pub queues: Vec<Vec<u8>>,
    pub stats: Vec<u8>,
}

/// What is found in these files.
pub fn listing_of(rt: &impl Abort, alloc: Global, files: &[NamedFile]) -> Listing {
    let mut listing = Listing {
        epoch: 0,
        queues: Vec::new(alloc),
        stats: Vec::new(alloc),
    };
    let finding = finding_of(rt, alloc, files);
    if let Finding::Names(names) = &finding {
        listing.put_names(rt, alloc, names);
    }
    let_go(finding);
    listing
}

impl Listing {
    // What was found.
    fn put_names(&mut self, rt: &impl Abort, alloc: Global, names: &FoundNames) {
        self.epoch = names.epoch;
        put(rt, &mut self.stats, b"stats");
        for topic in &names.topics {
            self.put_topic(rt, alloc, topic);
        }
    }

    // A topic with its channels.
    fn put_topic(&mut self, rt: &impl Abort, alloc: Global, topic: &FoundTopic) {
        self.put(rt, alloc, topic.name.bytes(), &topic.messages, topic.paused);
        put(rt, &mut self.stats, b" [");
        for channel in &topic.channels {
            let name = channel.name.bytes();
            self.put(rt, alloc, name, &channel.messages, channel.paused);
        }
        put(rt, &mut self.stats, b" ]");
    }

    // The queue of a topic or a channel, whose messages wait, all on disk.
    fn put(
        &mut self,
        rt: &impl Abort,
        alloc: Global,
        name: &[u8],
        messages: &[Message],
        paused: bool,
    ) {
        let line = line_of(rt, alloc, name, messages);
        self.queues.push(line).expect(rt, "memory");
        put_word(rt, &mut self.stats, name);
        put_count(rt, &mut self.stats, b"depth", messages.len() as u128);
        put_count(rt, &mut self.stats, b"disk", messages.len() as u128);
        put_flag(rt, &mut self.stats, b"paused", paused);
    }

    /// In how many queues other messages are found; in more than there are where other queues are.
    pub fn differences(&self, other: &Listing) -> usize {
        if self.queues.len() != other.queues.len() {
            return usize::MAX;
        }
        let mut count: usize = 0;
        for place in 0..self.queues.len() {
            if !same(self.line(place), other.line(place)) {
                count = count.saturating_add(1);
            }
        }
        count
    }

    // The line of the queue at this place.
    fn line(&self, place: usize) -> &[u8] {
        match self.queues.get(place) {
            Some(line) => line,
            None => b"",
        }
    }
}

// The messages of a queue of a topic or a channel.
fn line_of(rt: &impl Abort, alloc: Global, name: &[u8], messages: &[Message]) -> Vec<u8> {
    let mut line = Vec::new(alloc);
    put(rt, &mut line, name);
    for message in messages {
        put(rt, &mut line, b"; ");
        put_sent(rt, &mut line, message);
    }
    line
}
