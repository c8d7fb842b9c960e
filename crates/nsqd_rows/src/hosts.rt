//! A run over a host in memory, and what is seen of the host behind it.

ghost use Rattle.std.specs.Prelude.{IsSome};
ghost use Rattle.nsq_fakes.specs.MemHosts.{state_of};

use crate::files::{folder_of, list_files};
use crate::setting::push_word;
use broker_history::Entry;
use daemon_main::nsqd_run;
use nsq_base::Body;
use nsq_fakes::{Failing, MemClock, MemConn, MemFolder, MemHost, MemJournal, Piece};
use nsq_outside::{End, Host, Kind, Kit};
use path_plain::NamedFile;
use std::alloc::Global;
use std::process::Abort;
use std::sync::Wait;

// What a host in memory stands on.
type MemKit = Kit<MemFolder, MemClock, MemJournal<Entry>>;

/// What a run is given. It's used up and not dropped.
pub struct Given {
    pub words: Vec<String>,
    pub callers: Vec<(Kind, MemConn)>,
    /// The readings of the clock.
    pub readings: Vec<u64>,
    pub fails: Fails,
}

/// Which calls fail. It's used up and not dropped.
pub struct Fails {
    /// Those of the folder.
    pub folder: Vec<Failing>,
    /// Those of the host, by their numbers from 0: starts and accepts, counted together, prints, and tells.
    pub accepts: Vec<u64>,
    pub prints: Vec<u64>,
    pub tells: Vec<u64>,
}

/// A run without callers in which nothing fails, with the program's name as its only word.
pub fn nothing(rt: &impl Abort, alloc: Global) -> Given {
    let mut words = Vec::new(alloc);
    push_word(rt, alloc, &mut words, "nsqd");
    Given {
        words,
        callers: Vec::new(alloc),
        readings: Vec::new(alloc),
        fails: no_fails(alloc),
    }
}

fn no_fails(alloc: Global) -> Fails {
    Fails {
        folder: Vec::new(alloc),
        accepts: Vec::new(alloc),
        prints: Vec::new(alloc),
        tells: Vec::new(alloc),
    }
}

/// Adds a piece of what comes.
pub fn push_piece(rt: &impl Abort, alloc: Global, pieces: &mut Vec<Piece>, bytes: &[u8]) {
    let piece = Body::copy(alloc, bytes).expect(rt, "memory");
    pieces.push(Piece::Bytes(piece)).expect(rt, "memory");
}

/// Adds a caller of this kind from whom this comes, and whose reads and writes of these numbers fail.
pub fn push_caller(
    rt: &impl Abort,
    alloc: Global,
    callers: &mut Vec<(Kind, MemConn)>,
    kind: Kind,
    pieces: Vec<Piece>,
    (reads, writes): (Vec<u64>, Vec<u64>),
) {
    let conn = MemConn::new(alloc, pieces, reads, writes).expect(rt, "memory");
    callers.push((kind, conn)).expect(rt, "memory");
}

/// What a run came to. It's ended and not dropped.
pub struct Outcome {
    pub status: u8,
    host: MemHost<Entry>,
    ghost home: { IsSome (state_of host).kit },
}

/// Makes a run over a folder with these files.
pub fn run_with<R: Abort + Wait>(
    rt: &R,
    alloc: Global,
    given: Given,
    files: &[NamedFile],
) -> Outcome {
    let Given {
        words,
        callers,
        readings,
        fails,
    } = given;
    let mut host = host_of(rt, alloc, callers, readings, fails, files);
    let status = run(rt, alloc, &words, &mut host);
    drop(words);
    Outcome { status, host }
}

// The program over any host, of which nothing is said but that its kit comes home.
fn run<R: Wait, H: Host<Entry>>(rt: &R, alloc: Global, words: &[String], host: &mut H) -> u8
    requires { IsSome (H.state host.old).kit }
    ensures { IsSome (H.state host.new).kit }
{
    nsqd_run(rt, alloc, words, host)
}

fn kit_of(rt: &impl Abort, alloc: Global, folder: MemFolder, readings: Vec<u64>) -> MemKit {
    let clock = MemClock::new(alloc, readings).expect(rt, "memory");
    Kit {
        folder,
        clock,
        journal: MemJournal::new(alloc),
    }
}

// A host over a folder with these files, of which and of whose these calls fail.
fn host_of(
    rt: &impl Abort,
    alloc: Global,
    callers: Vec<(Kind, MemConn)>,
    readings: Vec<u64>,
    fails: Fails,
    files: &[NamedFile],
) -> MemHost<Entry>
    ensures { IsSome (state_of result).kit }
{
    let Fails {
        folder,
        accepts,
        prints,
        tells,
    } = fails;
    let kit = kit_of(rt, alloc, folder_of(rt, alloc, files, folder), readings);
    let mut host = host_over(rt, alloc, callers, kit);
    host.fail_at(accepts, prints, tells);
    host
}

// A host over this kit.
fn host_over(
    rt: &impl Abort,
    alloc: Global,
    callers: Vec<(Kind, MemConn)>,
    kit: MemKit,
) -> MemHost<Entry>
    ensures { IsSome (state_of result).kit }
{
    MemHost::new(alloc, callers, Vec::new(alloc), kit, false).expect(rt, "memory")
}

impl Outcome {
    /// Whether the data path was opened.
    pub fn has_opened(&self) -> bool {
        !self.host.starts().is_empty() && self.status != 2
    }

    /// What was noted, in order.
    pub fn entries(&self) -> &[(Entry, End)] {
        match self.host.kit() {
            Some(kit) => kit.journal.entries(),
            None => &[],
        }
    }

    /// The line that was told, where it is the only one.
    pub fn line(&self) -> &[u8] {
        match self.host.lines() {
            [line] => line,
            _ => b"",
        }
    }

    /// How many lines were told.
    pub fn lines(&self) -> usize {
        self.host.lines().len()
    }

    /// What was printed.
    pub fn printed(&self) -> &[u8] {
        self.host.printed()
    }

    /// Whether the host was never started, and gave no caller.
    pub fn is_unused(&self) -> bool {
        self.host.starts().is_empty() && self.host.given().is_empty()
    }

    /// How many callers were handed back.
    pub fn count(&self) -> usize {
        self.host.back().len()
    }

    /// The caller that was handed back at this place, with its number.
    pub fn caller(&self, place: usize) -> Option<(u64, Kind, &MemConn)> {
        let (number, conn) = self.host.back().get(place)?;
        let kind = self.host.given().get(place)?;
        Some((*number, *kind, conn))
    }

    /// Puts the files that are left in the place of these.
    pub fn leave(&mut self, rt: &impl Abort, alloc: Global, files: &mut Vec<NamedFile>) {
        leave_files(rt, alloc, &mut self.host, files);
    }

    /// Lets go of all of it.
    pub fn end(self) {
        let Outcome { status: _, host } = self;
        drop(host);
    }
}

// Puts the files of a host's folder in the place of these.
fn leave_files(
    rt: &impl Abort,
    alloc: Global,
    host: &mut MemHost<Entry>,
    files: &mut Vec<NamedFile>,
)
    requires { IsSome (state_of host.old).kit }
    ensures { IsSome (state_of host.new).kit }
{
    let mut home = host.lend();
    list_files(rt, alloc, &mut home.folder, files);
    host.restore(home);
}
