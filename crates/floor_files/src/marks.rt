ghost use Rattle.std.specs.Prelude.{◌≡◌, ◌<◌, ◌≤◌, ◌+◌, true, false};
ghost use Rattle.topic_core.specs.Seen.{IsSettled};
ghost use Rattle.channel_core.specs.declared.drawn.Drawn.TheVariants.{Nothing};
ghost use Rattle.floor_files.specs.Saving.{SavesRoom, SavesStall, is_failed};

use disk_queue::Sync;
use floor_rooms::{Room, Stall};
use nsq_outside::Folder;

/// Whether a moment lies less than the timeout behind a mark: all in nanoseconds. Requires a timeout above 0.
pub fn is_lately(since: u64, at: u64, timeout: u64) -> bool
    requires { 0 < timeout }
    ensures lately { result ≡ true → at < since + timeout }
    ensures past { result ≡ false → since + timeout ≤ at }
{
    at.saturating_sub(since) < timeout
}

/// Saves the queue of a topic that is marked since the timeout or longer, and answers the mark that is left: 2^64 - 1 where none is.
pub fn save_room<F: Folder>(room: &mut Room, folder: &mut F, at: u64, timeout: u64) -> u64
    requires timeout { 0 < timeout }
    requires settled { IsSettled room.old.queue }
    ensures { SavesRoom F.tells_files at timeout result (F.files folder.old) (F.files folder.new) (F.folder_faults folder.old) (F.folder_faults folder.new) room.old room.new }
{
    let Some(since) = room.since else {
        return u64::MAX;
    };
    if is_lately(since, at, timeout) {
        return since;
    }
    if is_failed(room.queue.sync(folder)) {
        return since;
    }
    room.since = None;
    u64::MAX
}

/// Saves the queue of a channel that is marked since the timeout or longer, and answers the mark that is left: 2^64 - 1 where none is.
pub fn save_stall<F: Folder>(stall: &mut Stall, folder: &mut F, at: u64, timeout: u64) -> u64
    requires timeout { 0 < timeout }
    requires nothing { stall.old.channel.drawn ≡ Nothing }
    ensures { SavesStall F.tells_files at timeout result (F.files folder.old) (F.files folder.new) (F.folder_faults folder.old) (F.folder_faults folder.new) stall.old stall.new }
{
    let Some(since) = stall.since else {
        return u64::MAX;
    };
    if is_lately(since, at, timeout) {
        return since;
    }
    if is_failed(stall.channel.sync(folder)) {
        return since;
    }
    stall.since = None;
    u64::MAX
}

// Whether a save failed.
fn is_failed(sync: Sync) -> bool
    ensures { result ≡ is_failed sync }
{
    match sync {
        Sync::NotDue | Sync::Done => false,
        Sync::Failed => true,
    }
}
