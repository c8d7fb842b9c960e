ghost use Rattle.std.specs.Prelude.{◌≡◌};

use crate::plays::Law;
use crate::{Stands, View};
use atomic_table::Table;
use std::alloc::Global;
use std::snapshot::Snapshot;
use std::sync::atomic::AtomicU64;

/// One value that passes take in turns.
#[derive(Drop)]
pub struct Turnstile<S: Stands> {
    pub(crate) table: Table<
        Option<Box<S>>,
        View<S::Entry, S::Picture>,
        Snapshot<Box<S>>,
        Law,
        Global,
    >,
    // 1 while a thread may sleep, which a giver then wakes, and 0 else.
    pub(crate) bell: AtomicU64,
    ghost sized: { (table.shared.table_id.words ≡ 1) × (table.shared.table_id.slots ≡ 1) },
}
