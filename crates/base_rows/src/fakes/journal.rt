ghost use Rattle.std.specs.Prelude.{◌≡◌, false};

use crate::check;
use nsq_base::Memory;
use nsq_fakes::MemJournal;
use nsq_outside::{End, Journal, Twin};
use nsq_system::Forgetful;
use std::alloc::Global;
use std::process::Abort;

/// An entry.
#[derive(Drop)]
pub struct Seen(pub u64);

impl Twin for Seen {
    fn twin(&self, _alloc: Global) -> Result<Seen, Memory> {
        Ok(Seen(self.0))
    }
}

struct Row {
    name: &'static str,
    /// Entries that are announced and noted, each with its end.
    noted: &'static [(u64, End)],
    /// What stands in the list then.
    kept: &'static [(u64, End)],
}

static ROWS: [Row; 1] = [Row {
    name: "a skipped entry leaves no trace",
    noted: &[(1, End::Done), (2, End::Skip), (3, End::Faulted(0))],
    kept: &[(1, End::Done), (3, End::Faulted(0))],
}];

/// Announces an entry, and notes it with this end.
fn add<J: Journal<Seen>>(rt: &impl Abort, journal: &mut J, entry: &Seen, end: End)
    requires { J.is_aside journal.old ≡ false }
    ensures { J.is_aside journal.new ≡ false }
{
    journal.ready(entry).expect(rt, "memory");
    journal.note(end);
}

/// Whether these entries stand in a journal, in this order.
pub fn keeps(journal: &MemJournal<Seen>, kept: &[(u64, End)]) -> bool {
    let entries = journal.entries();
    if entries.len() != kept.len() {
        return false;
    }
    let mut all = true;
    for i in 0..kept.len() {
        all = all && entries[i].0.0 == kept[i].0 && entries[i].1 == kept[i].1;
    }
    all
}

/// The entries go into a journal that keeps them, and into one that forgets them.
fn holds(rt: &impl Abort, alloc: Global, row: &Row) -> bool {
    let mut journal = MemJournal::new(alloc);
    let mut forgetful = Forgetful::new(alloc);
    for (number, end) in row.noted {
        add(rt, &mut journal, &Seen(*number), *end);
        add(rt, &mut forgetful, &Seen(*number), *end);
    }
    drop(forgetful);
    let all = keeps(&journal, row.kept);
    drop(journal);
    all
}

#[test]
fn rows(rt: HostRuntime) {
    for row in &ROWS {
        check(&rt, holds(&rt, rt.alloc(), row), row.name);
    }
}
