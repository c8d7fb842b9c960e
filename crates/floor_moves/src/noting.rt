ghost use Rattle.std.specs.Prelude.{◌≡◌, IsTrue, OnErr, OnOk, Some, false, true};
ghost use Rattle.floor_moves.specs.Moves.{entry_at};

use broker_history::{Act, Entry};
use nsq_base::Memory;
use nsq_outside::Journal;

/// Keeps the daemon's entry of a move aside: `note` appends it then. Want of memory is the only error.
pub fn announce<J: Journal<Entry>>(journal: &mut J, at: u64, act: Act) -> Result<(), Memory>
    requires { J.is_aside journal.old ≡ false }
    ensures aside { OnOk result (J.is_aside journal.new ≡ true) }
    ensures kept { OnOk result (IsTrue J.tells_notes → J.kept journal.new ≡ Some (entry_at at act)) }
    ensures err { OnErr result (J.is_aside journal.new ≡ false) }
    ensures notes { IsTrue J.tells_notes → J.notes journal.new ≡ J.notes journal.old }
{
    let entry = Entry { conn: 0, at, act };
    let ready = journal.ready(&entry);
    let_go(entry);
    ready
}

// The entry goes here, where nothing else is held beside it.
fn let_go(_entry: Entry) {}
