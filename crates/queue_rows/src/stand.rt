//! A queue over a folder in memory, and its calls.

ghost use Rattle.std.specs.Prelude.{◌≡◌};

use crate::folders::let_folder_go;
use crate::text::unknown;
use disk_queue::{Deleted, Emptied, Open, Peek, Put, Queue, QueueOptions, Stage, Sync, Take};
use nsq_fakes::MemFolder;
use std::alloc::Global;
use std::process::Abort;

/// Records of 26 to 60 bytes, of which two of 40 fit into a file.
pub const ROLLING: QueueOptions = QueueOptions {
    max_bytes: 100,
    sync_every: 2500,
    least: 26,
    limit: 60,
};

/// Records of 1 to 60 bytes.
pub const SHORT: QueueOptions = QueueOptions {
    max_bytes: 100,
    sync_every: 2500,
    least: 1,
    limit: 60,
};

/// Any records up to 6,000 bytes.
pub const WIDE: QueueOptions = QueueOptions {
    max_bytes: 1 << 20,
    sync_every: 2500,
    least: 1,
    limit: 6000,
};

/// A queue and its folder. Nothing is staged.
#[derive(Drop)]
pub struct Stand {
    pub queue: Queue,
    pub folder: MemFolder,
    options: QueueOptions,
    ghost own: { queue.options ≡ options },
    ghost none: { queue.staged.count ≡ 0 },
}

/// A new queue of that name over the folder.
pub fn stand_of(
    rt: &impl Abort,
    alloc: Global,
    name: &str,
    options: QueueOptions,
    folder: MemFolder,
) -> Stand {
    Stand {
        queue: fresh(rt, alloc, name, options),
        folder,
        options,
    }
}

fn fresh(rt: &impl Abort, alloc: Global, name: &str, options: QueueOptions) -> Queue
    ensures own { result.options ≡ options }
    ensures none { result.staged.count ≡ 0 }
{
    Queue::fresh(alloc, name, options).expect(rt, "memory")
}

/// Takes a queue apart, once for all that held one.
pub fn let_queue_go(_queue: Queue) {}

/// The same of a queue with its folder.
pub fn let_go(stand: Stand) {
    let Stand {
        queue,
        folder,
        options: _,
    } = stand;
    let_queue_go(queue);
    let_folder_go(folder);
}

impl Stand {
    /// Puts a record, which isn't too short.
    pub fn put(&mut self, rt: &impl Abort, bytes: &[u8]) -> Put {
        if bytes.len() < self.options.least as usize {
            return unknown(rt, "a short record");
        }
        self.queue.put(&mut self.folder, bytes)
    }

    /// Whether a record is staged, which is then forgotten.
    pub fn forget(&mut self, rt: &impl Abort, bytes: &[u8]) -> bool {
        if bytes.len() < self.options.least as usize {
            return unknown(rt, "a short record");
        }
        let staged = self.queue.stage(&mut self.folder, bytes);
        self.queue.forget();
        staged == Stage::Staged
    }

    /// Whether a record is staged, and a commit answers that.
    pub fn commit(&mut self, rt: &impl Abort, bytes: &[u8], answer: Sync) -> bool {
        if bytes.len() < self.options.least as usize {
            return unknown(rt, "a short record");
        }
        let staged = self.queue.stage(&mut self.folder, bytes);
        let joined = self.queue.commit(&mut self.folder);
        staged == Stage::Staged && joined == answer
    }

    /// Reads the first record, which is short enough.
    pub fn peek(&mut self, rt: &impl Abort, into: &mut [u8; 60]) -> Peek {
        if self.options.limit as usize > into.len() {
            return unknown(rt, "a long record");
        }
        self.queue.peek(&mut self.folder, into)
    }

    /// The same where it is taken.
    pub fn take(&mut self, rt: &impl Abort, into: &mut [u8; 60]) -> Take {
        if self.options.limit as usize > into.len() {
            return unknown(rt, "a long record");
        }
        self.queue.take(&mut self.folder, into)
    }

    pub fn sync(&mut self) -> Sync {
        self.queue.sync(&mut self.folder)
    }

    pub fn empty(&mut self) -> Emptied {
        self.queue.empty(&mut self.folder)
    }

    /// Opens a queue of that name in the folder, in place of this one.
    pub fn open(&mut self, alloc: Global, name: &str) -> Result<(), Open> {
        match Queue::open(alloc, &mut self.folder, name, self.options) {
            Ok(opened) => {
                let_queue_go(std::mem::replace(&mut self.queue, opened));
                Ok(())
            }
            Err(why) => Err(why),
        }
    }

    /// Deletes the queue, and makes a new one in its place. Where a fault came the old one is saved. Whether none came.
    pub fn delete(&mut self, rt: &impl Abort, alloc: Global, name: &str) -> bool {
        let fresh = fresh(rt, alloc, name, self.options);
        let old = std::mem::replace(&mut self.queue, fresh);
        match old.delete(&mut self.folder) {
            Deleted::Done => true,
            Deleted::Fault(kept) => {
                let mut kept = kept;
                kept.sync(&mut self.folder);
                let_queue_go(kept);
                false
            }
        }
    }
}
