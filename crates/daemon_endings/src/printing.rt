ghost use Rattle.std.specs.Prelude.{◌≡◌};
ghost use Rattle.daemon_endings.specs.Prints.{PrintsSo};
ghost use Rattle.daemon_endings.specs.Statuses.{status_of};

use crate::ending::Ending;
use broker_history::Entry;
use nsq_outside::{Did, Host};
use std::sync::Wait;

/// Prints a text.
pub fn print<R: Wait, H: Host<Entry>>(rt: &R, host: &mut H, text: &[u8]) -> Ending
    ensures prints { PrintsSo H.tells (H.state host.old) (H.state host.new) (H.content host.old) (H.content host.new) text.now result }
    ensures unserved { status_of result ≡ 4 → ⊥ }
{
    match host.print(rt, text) {
        Did::Done => Ending::Printed,
        Did::Failed => Ending::OutputFault,
    }
}
