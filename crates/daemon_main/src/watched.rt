ghost use Rattle.std.specs.Prelude.{Option};
ghost use Rattle.daemon_callers.specs.Served.{Views};
ghost use Rattle.daemon_main.specs.Sights.{Sight};

use broker_history::Entry;
use nsq_outside::Host;

/// What is seen of a host from outside. Each host is watched; as a word of clauses it is short.
pub trait Watched: Host<Entry> {
    /// What is seen of it and of its kit, where that is at home.
    ghost sight: { Self → Option (Sight Self.Conn) };

    /// What is seen of its connections.
    ghost seen: { Views Self.Conn };

    /// That it tells all of its content.
    ghost told: { Type 0 };
}

impl<H: Host<Entry>> Watched for H {
    ghost use Rattle.daemon_callers.specs.Served.{views};
    ghost use Rattle.daemon_main.specs.Sights.{AllTold, sight_of};

    ghost sight = { λ h. sight_of H.Journal.notes H.Folder.files H.Clock.coming H.Folder.folder_faults (H.state h) (H.content h) };

    ghost seen = { views H.Conn.pieces H.Conn.left H.Conn.ended H.Conn.written H.Conn.read_faults H.Conn.write_faults };

    ghost told = { AllTold H.tells H.Conn.tells_pieces H.Conn.tells_written H.Journal.tells_notes H.Folder.tells_files H.Clock.tells_readings };
}
