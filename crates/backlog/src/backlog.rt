ghost use Rattle.std.specs.Prelude.{◌+◌, ◌≡◌, ◌<◌, ◌≤◌, ◌^◌, ℕ, List, [], IsTrue, IsSome, IfOk, IfErr, IfSome, OnOk};
ghost use Rattle.nsq_outside.specs.Files.{Files};
ghost use Rattle.queue_image.specs.FileNames.{meta_file};
ghost use Rattle.queue_image.specs.Metas.{IsIdle};
ghost use Rattle.disk_queue.specs.Opened.{IsOpened, IsTidied, FilesOfChange};
ghost use Rattle.disk_queue.specs.Refusals.{OpenFails, OpenCounts};
ghost use Rattle.v2_frame.specs.declared.message.Message.{Message};
ghost use Rattle.backlog.specs.Seen.{ForMessages, IsOpenedAt, fresh_backlog, ring_depth, disk_depth};
ghost use Rattle.backlog.specs.Lists.{IsFoundAgain, OnDisk, Stands, WasFound, OpenRefused};

mod drawing;
mod putting;
mod saving;

use crate::Depths;
use circular_buffer::HeapCircularBuffer;
use disk_queue::{Open, Queue, QueueOptions};
use nsq_core::Memory;
use nsq_outside::Folder;
use std::alloc::Global;
use std::marker::Model;
use v2_frame::Message;

/// Where the message came from that was drawn and isn't settled yet.
#[derive(Clone, Copy)]
enum Lent {
    /// None was drawn.
    Nothing,
    /// It was the ring's first, and left it.
    OfRing,
    /// It is the first on disk, and is there still.
    OfDisk,
}

/// The messages that wait in a topic or a channel: a ring of a fixed capacity in memory, and for a durable one a queue on disk, which
/// takes what finds the ring full. What is in the ring is drawn before what is on disk.
///
/// The ring's places are reserved once, when it is made, at 64 bytes a place; bodies are the messages' own. No call but `fresh`, `open`
/// and a `draw` from disk takes memory.
#[derive(Drop)]
pub struct Backlog {
    alloc: Global,
    ring: HeapCircularBuffer<Message>,
    // The queue of a durable one.
    queue: Option<Queue>,
    lent: Lent,
}

impl Model for Backlog {
    ghost use Rattle.std.specs.Prelude.{All};
    ghost use Rattle.backlog.specs.Seen.{Seen, FitsLimit};
    ghost use Rattle.backlog.specs.Kept.{IsSound};

    ghost Value = { Seen };

    ghost view = { λ b. record { ring = b.ring.items; capacity = b.ring.capacity; queue = b.queue; lent = b.lent } };

    ghost invariant = { λ b. IsSound b.ring.items b.ring.capacity b.queue b.lent };
}

impl Backlog {
    /// An empty backlog, whose ring holds so many messages; a durable one with a queue of that name, which begins at file 0, whatever the
    /// folder has. What the last save left stands where the folder has no metadata of that name, or that of an empty list. Requires options
    /// for records that are messages: of 26 bytes and a body of at most 16,777,216. Want of memory is the only error.
    pub fn fresh(
        alloc: Global,
        name: &str,
        ring: usize,
        durable: bool,
        options: QueueOptions,
    ) -> Result<Backlog, Memory>
        requires { ForMessages options }
        ensures seen { IfOk result (λ b. b ≡ fresh_backlog name.now ring durable options) }
        ensures list { IfOk result (λ b. (files : Files) → OnDisk b.queue files []) }
        ensures stands { IfOk result (λ b. (files : Files) → IsIdle (files (meta_file name.now)) → Stands b.queue files) }
    {
        let ring = HeapCircularBuffer::with_capacity(alloc, ring)?;
        let queue = if durable {
            Some(Queue::fresh(alloc, name, options)?)
        } else {
            None
        };
        Ok(Backlog {
            alloc,
            ring,
            queue,
            lent: Lent::Nothing,
        })
    }

    /// A durable backlog, whose ring holds so many messages, with the messages that an opening finds in the queue of that name: all of
    /// them are on disk. Options and errors are as those of `fresh` and `Queue::open`.
    pub fn open<F: Folder>(
        alloc: Global,
        folder: &mut F,
        name: &str,
        ring: usize,
        options: QueueOptions,
    ) -> Result<Backlog, Open>
        requires { ForMessages options }
        ensures seen { IfOk result (λ b. IfSome b.queue (IsOpenedAt name.now ring options b)) }
        ensures durable { IfOk result (λ b. IsSome b.queue) }
        ensures list { IsTrue F.tells_files → IfOk result (λ b. (messages : List Message) → WasFound name.now (F.files folder.old) messages → OnDisk b.queue (F.files folder.new) messages) }
        ensures opened { IsTrue F.tells_files → IfOk result (λ b. IfSome b.queue (λ q. IsOpened q (F.files folder.old) (F.files folder.new))) }
        ensures again { IsTrue F.tells_files → OnOk result (IsFoundAgain name.now (F.files folder.old) (F.files folder.new)) }
        ensures stands { IsTrue F.tells_files → IfOk result (λ b. Stands b.queue (F.files folder.new)) }
        ensures tidied { IsTrue F.tells_files → IfOk result (λ b. IfSome b.queue (λ q. IsTidied q (F.files folder.old) (F.files folder.new))) }
        ensures refused { IsTrue F.tells_files → IfErr result (λ e. OpenRefused name.now (F.files folder.old) (F.files folder.new) e) }
        ensures others { IsTrue F.tells_files → FilesOfChange name.now (F.files folder.old) (F.files folder.new) }
        ensures faults { F.folder_faults folder.old ≤ F.folder_faults folder.new }
        ensures cause { IfErr result (λ e. OpenFails (F.folder_faults folder.old) (F.folder_faults folder.new) e) }
        ensures exact { IsTrue F.counts_exactly → OpenCounts (F.folder_faults folder.old) (F.folder_faults folder.new) result }
    {
        let Ok(ring) = HeapCircularBuffer::with_capacity(alloc, ring) else {
            return Err(Open::Memory);
        };
        let queue = Queue::open(alloc, folder, name, options)?;
        Ok(Backlog {
            alloc,
            ring,
            queue: Some(queue),
            lent: Lent::Nothing,
        })
    }

    /// How many messages wait, and where. Their sum stays below 2^128.
    pub fn depths(&self) -> Depths
        ensures ring { result.ring ≡ ring_depth self.now }
        ensures disk { result.disk ≡ disk_depth self.now.queue }
        ensures within { result.ring ≤ self.now.capacity }
        ensures fits { result.ring + result.disk < 2 ^ 128 }
    {
        let lent = match self.lent {
            Lent::OfRing => 1,
            Lent::Nothing | Lent::OfDisk => 0,
        };
        Depths {
            ring: self.ring.len() as u64 + lent,
            disk: match &self.queue {
                Some(queue) => queue.depth(),
                None => 0,
            },
        }
    }
}
