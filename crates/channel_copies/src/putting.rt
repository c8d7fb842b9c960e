ghost use Rattle.std.specs.Prelude.{◌≡◌, ◌≤◌, length};
ghost use Rattle.backlog.specs.declared.backlog.Lent.TheVariants.{Nothing};
ghost use Rattle.backlog.specs.Seen.{FitsLimit};
ghost use Rattle.channel_copies.specs.Putting.{Puts, around};

use backlog::{Backlog, PutOne};
use nsq_outside::Folder;
use v2_frame::Message;

/// How a copy's moving back into a backlog ends.
#[derive(Clone, Copy)]
pub enum Back {
    /// It isn't where it was any more: the backlog has its message, or dropped it.
    Done,
    /// The folder failed, and its count of faults rose in this call. The copy is where it was.
    Fault,
}

/// Puts a message into a backlog, as `Backlog::put`.
pub fn put_back<F: Folder>(
    backlog: &mut Backlog,
    folder: &mut F,
    scratch: &mut [u8],
    message: Message,
) -> PutOne
    requires nothing { backlog.old.lent ≡ Nothing }
    requires short { FitsLimit message }
    requires scratch { 16777242 ≤ length scratch.old }
    ensures { Puts F.tells_files message result (around backlog.old (F.files folder.old) (F.folder_faults folder.old)) (around backlog.new (F.files folder.new) (F.folder_faults folder.new)) }
{
    backlog.put(folder, scratch, message)
}
