use super::folder::is_file;
use super::journal::Seen;
use super::made_conn;
use crate::check;
use nsq_fakes::{MemClock, MemFolder, MemJournal};
use nsq_outside::{Clock, Did, Folder, Length};
use nsq_system::Forgetful;
use std::alloc::Global;
use std::process::Abort;
use std::thread::{Threads, join};

/// Writes a file anew, under another name first, and gives its length.
fn put_anew(folder: &mut MemFolder, name: &str, bytes: &[u8]) -> Length {
    let is_put = folder.write_at("new", 0, bytes) == Did::Done
        && folder.sync("new") == Did::Done
        && folder.rename("new", name) == Did::Done
        && folder.sync_names() == Did::Done;
    if is_put {
        folder.len(name)
    } else {
        Length::Failed
    }
}

/// Lets another thread have what a host gives and lends, and takes it back.
fn carried<R: Threads, T: Drop + Send>(rt: &R, thing: T) -> T {
    let (carried, _) = join(rt, move || thing, || ());
    carried
}

/// Whether a folder keeps its files where it goes.
fn folder_moves<R: Abort + Threads>(rt: &R, alloc: Global) -> bool {
    let mut folder = MemFolder::new(alloc, Vec::new(alloc), Vec::new(alloc)).expect(rt, "memory");
    let is_put = put_anew(&mut folder, "a", b"anew") == Length::Is(4);
    let mut folder = carried(rt, folder);
    is_put && is_file(&folder, "a", b"anew") && put_anew(&mut folder, "b", b"") == Length::Is(0)
}

/// Whether a clock keeps its readings where it goes.
fn clock_moves<R: Abort + Threads>(rt: &R, alloc: Global) -> bool {
    let clock = MemClock::new(alloc, [7].to_vec(alloc).expect(rt, "memory")).expect(rt, "memory");
    carried(rt, clock).now() == 7
}

#[test]
fn fakes_move_between_threads(rt: HostRuntime) {
    let alloc = rt.alloc();
    check(&rt, folder_moves(&rt, alloc), "a folder");
    check(&rt, clock_moves(&rt, alloc), "a clock");
    drop(carried(&rt, made_conn(&rt, alloc, "hi", "", "")));
    drop(carried(&rt, MemJournal::<Seen>::new(alloc)));
    drop(carried(&rt, Forgetful::<Seen>::new(alloc)));
}
