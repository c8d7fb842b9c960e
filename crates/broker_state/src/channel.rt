ghost use Rattle.std.specs.Prelude.{◌≡◌, IfOk};
ghost use Rattle.std.specs.Str.{bytes_eq};
ghost use Rattle.broker_history.specs.State.{new_channel};

use crate::copies::{MessageCopy, copy_all};
use crate::growing::Copied;
use crate::in_order::Ordered;
use crate::texts::same;
use nsq_base::{Chan, Memory};
use std::alloc::Global;
use std::marker::Model;

/// A channel. Its counts begin with the run and stay at 2^64 - 1.
#[derive(Drop)]
pub struct ChannelState {
    /// Its name.
    pub name: Chan,
    /// Whether it is paused.
    pub paused: bool,
    /// How many copies joined it and weren't dropped then.
    pub message_count: u64,
    /// How many copies were given back by clients.
    pub requeue_count: u64,
    /// How many copies timed out.
    pub timeout_count: u64,
    /// Its copies, in the order in which they joined, also those that are done with.
    pub copies: Vec<MessageCopy>,
}

impl Model for ChannelState {
    ghost use Rattle.broker_history.specs.State.{Channel};

    ghost Value = { Channel };

    ghost view = { λ c. record { name = c.name; paused = c.paused; message_count = c.message_count; requeue_count = c.requeue_count; timeout_count = c.timeout_count; copies = c.copies.items } };
}

impl Ordered for ChannelState {
    ghost use Rattle.nsq_base.specs.Names.{is_before};
    ghost use Rattle.path_image.proofs.NameLists.{before_once};

    ghost before = { λ a b. is_before a.name b.name };

    fn precedes(&self, other: &ChannelState) -> bool {
        self.name.bytes().cmp(other.name.bytes()).is_lt()
    }

    ghost once = { λ a b h. before_once a.name b.name h };
}

impl Copied for ChannelState {
    fn copied(&self, alloc: Global) -> Result<ChannelState, Memory> {
        self.copy(alloc)
    }
}

impl ChannelState {
    /// A channel as it is made.
    pub fn new(alloc: Global, name: Chan) -> ChannelState
        ensures { result ≡ new_channel name }
    {
        ChannelState {
            name,
            paused: false,
            message_count: 0,
            requeue_count: 0,
            timeout_count: 0,
            copies: Vec::new(alloc),
        }
    }

    /// Whether it has this name.
    pub fn is_named(&self, name: &Chan) -> bool
        ensures { result ≡ bytes_eq name.now self.now.name }
    {
        same(name.bytes(), self.name.bytes())
    }

    /// A copy of it. Want of memory is the only error.
    pub fn copy(&self, alloc: Global) -> Result<ChannelState, Memory>
        ensures { IfOk result (λ channel. channel ≡ self.now) }
    {
        let copies = copy_all(alloc, &self.copies)?;
        Ok(self.with_copies(copies))
    }

    /// The channel with these copies.
    pub fn with_copies(&self, copies: Vec<MessageCopy>) -> ChannelState
        ensures { result ≡ record self.now { copies = copies.items } }
    {
        ChannelState {
            name: self.name,
            paused: self.paused,
            message_count: self.message_count,
            requeue_count: self.requeue_count,
            timeout_count: self.timeout_count,
            copies,
        }
    }
}
