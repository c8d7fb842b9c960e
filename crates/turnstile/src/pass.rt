ghost use Rattle.std.specs.Prelude.{◌≡◌, true};
ghost use Rattle.turnstile.specs.Views.{hand};

use crate::{Stands, View};
use atomic_table::Seat;
use std::snapshot::Snapshot;

/// What one thread takes turns with. It has no bytes. Contracts see it by its view (`view`): its number, its root, the entries that
/// it has seen, and whether it holds the turn. Its own entries are those that it has seen which name its number and aren't common.
#[derive(Drop)]
pub struct Pass<S: Stands> {
    pub(crate) seat: Seat<Option<Box<S>>, View<S::Entry, S::Picture>>,
    ghost is_live: { seat.me.0.is_live ≡ true },
    ghost in_hand: { seat.me.1 ≡ hand seat.me.0.turn },
}

/// The value while a pass holds the turn. It has to be given back.
pub struct Held<S: Stands> {
    /// The value.
    pub value: Box<S>,
    pub(crate) by: Snapshot<Pass<S>>,
}
