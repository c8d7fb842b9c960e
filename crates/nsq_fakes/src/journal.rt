ghost use Rattle.std.specs.Prelude.{◌≡◌, ◌<◌, [], true, IsSome, None, Some, is_some, vec_len, vec_capacity};

use nsq_base::Memory;
use nsq_outside::{End, Journal, Twin};
use std::alloc::Global;

/// A journal in memory, which keeps its entries.
#[derive(Drop)]
pub struct MemJournal<E: Drop> {
    alloc: Global,
    entries: Vec<(E, End)>,
    aside: Option<E>,
    ghost room: { IsSome aside → vec_len entries < vec_capacity entries },
}

impl<E: Drop> MemJournal<E> {
    ghost use Rattle.nsq_fakes.specs.MemJournals.{notes_of, kept_of};

    /// An empty journal, with no entry aside.
    pub fn new(alloc: Global) -> MemJournal<E>
        ensures notes { notes_of result ≡ [] }
        ensures aside { kept_of result ≡ None }
    {
        MemJournal {
            alloc,
            entries: Vec::new(alloc),
            aside: None,
        }
    }

    /// An empty journal in the place of this one.
    pub(super) fn renewed(self) -> MemJournal<E>
        ensures notes { notes_of result ≡ [] }
        ensures aside { kept_of result ≡ None }
    {
        MemJournal::new(self.alloc)
    }

    /// What was noted, in order.
    pub fn entries(&self) -> &[(E, End)]
        ensures { result.now ≡ notes_of self.now }
    {
        &self.entries
    }
}

impl<E: Drop + Twin> Journal<E> for MemJournal<E> {
    ghost use Rattle.nsq_fakes.specs.MemJournals.{notes_of, kept_of};

    ghost tells_notes = { true };

    ghost notes = { notes_of };

    ghost kept = { kept_of };

    ghost is_aside = { λ journal. is_some (kept_of journal) };

    fn ready(&mut self, entry: &E) -> Result<(), Memory> {
        let copy = entry.twin(self.alloc)?;
        self.entries.reserve(1)?;
        self.aside = Some(copy);
        Ok(())
    }

    fn note(&mut self, end: End) {
        let Some(entry) = self.aside.take() else {
            return;
        };
        match end {
            End::Skip => {}
            _ => {
                self.entries.push_reserved((entry, end));
            }
        }
    }
}
