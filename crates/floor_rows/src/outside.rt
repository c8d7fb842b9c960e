//! A clock that shows what it is set to, and a journal that keeps its entries and counts them; both tell contracts nothing.

ghost use Rattle.std.specs.Prelude.{◌≡◌, [], None, is_some};
ghost use Rattle.nsq_fakes.specs.MemJournals.{kept_of};

use broker_history::Entry;
use nsq_base::Memory;
use nsq_fakes::{MemFolder, MemJournal};
use nsq_outside::{Clock, End, Journal, Kit};
use std::alloc::Global;
use std::sync::atomic::{AtomicU64, Ordering};

/// What is seen of a floor from outside while it is used.
#[derive(Drop)]
pub struct Dials {
    // What its clock shows.
    moment: AtomicU64,
    // How many entries were noted.
    noted: AtomicU64,
}

impl Dials {
    /// A clock that shows 0, and a journal without entries.
    pub fn new() -> Dials {
        Dials {
            moment: AtomicU64::new(0),
            noted: AtomicU64::new(0),
        }
    }

    /// The clock shows this moment from now on.
    pub fn show(&self, reading: u64) {
        self.moment.store(reading, Ordering::SeqCst);
    }

    /// What the clock shows.
    pub fn reading(&self) -> u64 {
        self.moment.load(Ordering::SeqCst)
    }

    fn count(&self, noted: usize) {
        self.noted.store(noted as u64, Ordering::SeqCst);
    }

    /// How many entries were noted.
    pub fn noted(&self) -> usize {
        self.noted.load(Ordering::SeqCst) as usize
    }
}

/// A clock that shows the moment of the dials.
#[derive(Drop)]
pub struct Shown<'a> {
    dials: &'a Dials,
}

impl Clock for Shown<'_> {
    ghost use Rattle.std.specs.Prelude.{false};

    ghost tells_readings = { false };

    ghost coming = { λ _ _. 0 };

    fn now(&mut self) -> u64 {
        self.dials.reading()
    }
}

/// A journal that keeps its entries, and tells the dials how many were noted.
#[derive(Drop)]
pub struct Counted<'a> {
    inner: MemJournal<Entry>,
    dials: &'a Dials,
}

impl Counted<'_> {
    /// What was noted, in order.
    pub fn entries(&self) -> &[(Entry, End)] {
        self.inner.entries()
    }
}

impl Journal<Entry> for Counted<'_> {
    ghost use Rattle.std.specs.Prelude.{false};

    ghost tells_notes = { false };

    ghost notes = { λ _. [] };

    ghost kept = { λ _. None };

    ghost is_aside = { λ journal. is_some (kept_of journal.inner) };

    fn ready(&mut self, entry: &Entry) -> Result<(), Memory> {
        self.inner.ready(entry)
    }

    fn note(&mut self, end: End) {
        self.inner.note(end);
        self.dials.count(self.inner.entries().len());
    }
}

/// What a floor in memory is made of, and what it leaves.
pub type MemKit<'a> = Kit<MemFolder, Shown<'a>, Counted<'a>>;

/// A folder, the clock of the dials and a journal without entries.
pub fn kit_of<'a>(alloc: Global, folder: MemFolder, dials: &'a Dials) -> MemKit<'a>
    ensures { kept_of result.journal.inner ≡ None }
{
    dials.count(0);
    Kit {
        folder,
        clock: Shown { dials },
        journal: Counted {
            inner: MemJournal::new(alloc),
            dials,
        },
    }
}
