//! Rows of a folder on a disk that is slow and fails.
//!
//! A row is a text: its name, what fails, and calls on the folder with their answers. What fails is `nothing`, `reads` of an open file from a
//! number on, or what the disk is asked to do: `open`, `list`, `length`, `write`, `cut`, `sync`, `rename` or `remove`.

use crate::check;
use crate::folder_steps::all_answer;
use crate::words::{cut, is, number, part};
use nsq_system::DirFolder;
use std::alloc::{AllocError, Allocator, Global};
use std::cell::Cell;
use std::fs::{File, Metadata, OpenFile, OpenOptions};
use std::io::{ErrorKind, Read, Seek, SeekFrom, Write};
use std::os::unix::fs::FileExt;
use std::process::Abort;
use std::rt::Files;
use std::{fs, io};

/// A disk whose files give at most 2 bytes a read; of the reads of an open file each third one is interrupted, from the
/// first one on, and those from a number on fail. One other thing that it is asked may always fail. Nothing else can be asked of it.
#[derive(Drop)]
struct Slow {
    rt: HostRuntime,
    fails_from: u64,
    broken: &'static str,
}

/// An open file of such a disk.
#[derive(Drop)]
struct SlowFile {
    file: File,
    reads: Cell<u64>,
    fails_from: u64,
    broken: &'static str,
}

/// Fails where this is what is broken.
fn ask(broken: &str, asked: &str) -> io::Result<()> {
    if is(broken, asked) {
        return Err(ErrorKind::Other.into());
    }
    Ok(())
}

impl Clone for Slow {
    fn clone(&self) -> Result<Slow, AllocError> {
        let rt = self.rt.clone()?;
        Ok(Slow {
            rt,
            fails_from: self.fails_from,
            broken: self.broken,
        })
    }
}

impl Alloc for Slow {
    type A = Global;

    fn alloc(&self) -> Global {
        self.rt.alloc()
    }
}

impl Files for Slow {
    type File = SlowFile;

    type Dir = <HostRuntime as Files>::Dir;

    fn open_file(&self, how: &OpenOptions, path: &str) -> io::Result<SlowFile> {
        ask(self.broken, "open")?;
        let file = self.rt.open_file(how, path)?;
        Ok(SlowFile {
            file,
            reads: Cell::new(0),
            fails_from: self.fails_from,
            broken: self.broken,
        })
    }

    fn open_dir(&self, path: &str) -> io::Result<<HostRuntime as Files>::Dir> {
        ask(self.broken, "list")?;
        self.rt.open_dir(path)
    }

    fn metadata(&self, _path: &str) -> io::Result<Metadata> {
        Err(ErrorKind::Unsupported.into())
    }

    fn symlink_metadata(&self, _path: &str) -> io::Result<Metadata> {
        Err(ErrorKind::Unsupported.into())
    }

    fn copy(&self, _from: &str, _to: &str) -> io::Result<u64> {
        Err(ErrorKind::Unsupported.into())
    }

    fn rename(&self, from: &str, to: &str) -> io::Result<()> {
        ask(self.broken, "rename")?;
        self.rt.rename(from, to)
    }

    fn remove_file(&self, path: &str) -> io::Result<()> {
        ask(self.broken, "remove")?;
        self.rt.remove_file(path)
    }

    fn create_dir(&self, _path: &str) -> io::Result<()> {
        Err(ErrorKind::Unsupported.into())
    }

    fn remove_dir(&self, _path: &str) -> io::Result<()> {
        Err(ErrorKind::Unsupported.into())
    }

    fn remove_dir_all<B: Allocator>(&self, _alloc: B, _path: &str) -> io::Result<()> {
        Err(ErrorKind::Unsupported.into())
    }
}

impl Read for SlowFile {
    fn read(&mut self, into: &mut [u8]) -> io::Result<usize> {
        self.file.read(into)
    }
}

impl Write for SlowFile {
    fn write(&mut self, bytes: &[u8]) -> io::Result<usize> {
        self.file.write(bytes)
    }

    fn flush(&mut self) -> io::Result<()> {
        Ok(())
    }
}

impl Seek for SlowFile {
    fn seek(&mut self, to: SeekFrom) -> io::Result<u64> {
        self.file.seek(to)
    }
}

impl OpenFile for SlowFile {
    fn metadata(&self) -> io::Result<Metadata> {
        ask(self.broken, "length")?;
        self.file.metadata()
    }

    fn set_len(&self, size: u64) -> io::Result<()> {
        ask(self.broken, "cut")?;
        self.file.set_len(size)
    }

    fn sync_all(&self) -> io::Result<()> {
        ask(self.broken, "sync")?;
        self.file.sync_all()
    }

    fn sync_data(&self) -> io::Result<()> {
        self.file.sync_data()
    }
}

impl FileExt for SlowFile {
    fn read_at(&self, into: &mut [u8], at: u64) -> io::Result<usize> {
        let read = self.reads.get();
        self.reads.set(read.saturating_add(1));
        if read >= self.fails_from {
            return Err(ErrorKind::Other.into());
        }
        if read % 3 == 0 {
            return Err(ErrorKind::Interrupted.into());
        }
        let few = into.len().min(2);
        self.file.read_at(&mut into[..few], at)
    }

    fn write_at(&self, bytes: &[u8], at: u64) -> io::Result<usize> {
        ask(self.broken, "write")?;
        self.file.write_at(bytes, at)
    }
}

const FOLDER: &str = "base_rows_disk";

// Of an open file that is read from a number on in vain the first read is interrupted, the second gives bytes and the third fails.
static ROWS: &'static str = "
short and interrupted reads
        nothing: write a 0 hello = done; read a 0 = 5 hello--; read a 1 = 3 ell; read a 5 = 0 -; len a = 5

a disk that fails in the middle of a read
        reads 2: write a 0 hello = done; read a 0 = failed; len a = 5

a file whose read failed is opened anew
        reads 2: write a 0 hello = done; read a 0 = failed; read a 2 = 2 ll; read a 2 = failed; read a 3 = 2 lo

no file can be opened
        open: write a 0 hello = failed; len a = failed; read a 0 = failed; cut a 0 = failed; sync a = failed; sync-names = failed; list =

the folder can't be listed
        list: list = failed; sync-names = done; len a = absent

no length can be learned
        length: write a 0 hi = done; len a = failed; len b = absent; write a 5 = failed; read a 0 = 2 hi--

nothing can be written
        write: cut a 2 = done; write a 0 hello = failed; read a 0 = 2 \0\0--

no file can be cut: one that was absent is absent again
        cut: write a 0 hi = done; cut a 1 = failed; write a 5 = failed; len a = 2; cut b 1 = failed; len b = absent

nothing can be made durable
        sync: sync a = done; write a 0 hi = done; sync a = failed; sync-names = failed; len a = 2

no file can be renamed
        rename: write a 0 hi = done; rename a b = failed; len a = 2; len b = absent

no file can be removed
        remove: write a 0 hi = done; remove a = failed; len a = 2
";

/// Whether this is something that a disk is asked to do, its reads, or nothing.
fn is_known(word: &str) -> bool {
    for known in "nothing reads open list length write cut sync rename remove".split(' ') {
        if is(known, word) {
            return true;
        }
    }
    false
}

/// Whether a folder of such a disk answers all calls of a row.
fn all_go(rt: &impl Abort, own: &HostRuntime, row: &'static str) -> bool {
    let (_, row) = part(rt, row, "\n");
    let (fails, steps) = part(rt, row.trim(), ":");
    let (broken, from) = cut(fails);
    let slow = Slow {
        rt: own.clone().expect(rt, "memory"),
        fails_from: if from.is_empty() {
            u64::MAX
        } else {
            number(rt, from)
        },
        broken,
    };
    let mut folder = DirFolder::new(slow, own.alloc(), FOLDER).expect(rt, "memory");
    is_known(broken) && all_answer(rt, own.alloc(), &mut folder, steps)
}

/// Whether an empty folder goes so.
fn holds(rt: &impl Abort, own: &HostRuntime, row: &'static str) -> bool {
    let _ = fs::remove_dir_all(own, FOLDER);
    let is_made = fs::create_dir(own, FOLDER).is_ok();
    let all = is_made && all_go(rt, own, row);
    fs::remove_dir_all(own, FOLDER).is_ok() && all
}

#[test]
fn rows(rt: HostRuntime) {
    for row in ROWS.trim().split("\n\n") {
        check(&rt, holds(&rt, &rt, row), row);
    }
}
