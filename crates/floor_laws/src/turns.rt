//! What a turn of the broker notes, in order, and what follows from that, as laws.

ghost use Rattle.floor_laws.specs.Laws.{TurnsJoin, TurnsAreOf, TurnsAdd, TurnsAreTimed, MovesAllow, StuckAllows, StuckStops, HeldKeepsCalm, LegalBegins, RisesAdd, FaultsAdd, ApartAdds};

/// Turns of a number, one after another, are its turns: each entry is common or of it, and a turn adds to its own entries what the answer says.
pub fn turns()
    ensures join { TurnsJoin }
    ensures of { TurnsAreOf }
    ensures add { TurnsAdd }
    ensures timed { TurnsAreTimed }
{}

/// What was paid allows the turn's act, also behind what was held back.
pub fn payments()
    ensures moves { MovesAllow }
    ensures stuck { StuckAllows }
    ensures stops { StuckStops }
    ensures held { HeldKeepsCalm }
{}

/// Whether a connection ever began is told by its own entries.
pub fn beginnings()
    ensures begins { LegalBegins }
{}

/// Disk faults add up, as counts do.
pub fn faults()
    ensures rises { RisesAdd }
    ensures faults { FaultsAdd }
    ensures apart { ApartAdds }
{}
