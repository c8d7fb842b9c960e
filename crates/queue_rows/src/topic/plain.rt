//! A topic as a plain list of what waits in it, by the rules of the floor alone.

use crate::topic::bench::delay_of;
use std::alloc::Global;
use std::process::Abort;

/// A message that waits: its number, its delay, and whether that may be forgotten.
#[derive(Clone, Copy)]
pub struct Waiting {
    pub number: u64,
    pub delay: u64,
    pub loose: bool,
}

/// A topic: what waits in it, in the order in which it was put, what it took, and the letters of the channels that are owed that.
#[derive(Drop)]
pub struct Plain {
    ephemeral: bool,
    memory: usize,
    pub count: u64,
    pub waiting: Vec<Waiting>,
    pub taken: Option<(u64, u64)>,
    pub owed: Vec<u8>,
}

impl Plain {
    pub fn new(alloc: Global, ephemeral: bool, memory: usize) -> Plain {
        Plain {
            ephemeral,
            memory,
            count: 0,
            waiting: Vec::new(alloc),
            taken: None,
            owed: Vec::new(alloc),
        }
    }

    /// Puts a message in. An ephemeral topic drops it where as many wait as memory has room for.
    pub fn put(&mut self, rt: &impl Abort, number: u64, delay: u64) {
        let loose = self.memory <= self.waiting.len();
        if self.ephemeral && loose {
            return;
        }
        let waiting = Waiting {
            number,
            delay,
            loose,
        };
        self.waiting.push(waiting).expect(rt, "memory");
        self.count = self.count.saturating_add(1);
    }

    /// Puts messages in, each with the delay of its number.
    pub fn put_all(&mut self, rt: &impl Abort, numbers: &[u64]) {
        for number in numbers {
            self.put(rt, *number, delay_of(*number));
        }
    }

    /// Whether a message of this number waits that may have this delay. Then it waits no more.
    pub fn draw(&mut self, number: u64, delay: u64) -> bool {
        let Some(i) = self.place_of(number) else {
            return false;
        };
        if i >= self.waiting.len() {
            return false;
        }
        let waiting = self.waiting.remove(i);
        waiting.delay == delay || (waiting.loose && delay == 0)
    }

    /// Takes a message that was drawn, which these channels are owed.
    pub fn take(&mut self, rt: &impl Abort, number: u64, delay: u64, channels: &[u8]) {
        self.taken = Some((number, delay));
        self.owed.clear();
        self.owed.extend_from_slice(channels).expect(rt, "memory");
    }

    /// The channel is owed nothing. What is owed to none is taken no more.
    pub fn pay(&mut self, channel: u8) {
        self.owed.retain(|owed| *owed != channel);
        if self.owed.is_empty() {
            self.taken = None;
        }
    }

    /// What a stop and a start leave of it: all that waited, and what was taken, without delays.
    pub fn restart(&mut self, rt: &impl Abort) {
        if let Some((number, delay)) = self.taken {
            let waiting = Waiting {
                number,
                delay,
                loose: true,
            };
            self.waiting.push(waiting).expect(rt, "memory");
        }
        for waiting in &mut self.waiting {
            waiting.delay = 0;
        }
        self.taken = None;
        self.owed.clear();
        self.count = 0;
    }

    // Where the message of this number stands.
    fn place_of(&self, number: u64) -> Option<usize> {
        for (i, waiting) in self.waiting.iter().enumerate() {
            if waiting.number == number {
                return Some(i);
            }
        }
        None
    }
}
