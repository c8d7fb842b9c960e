ghost use Rattle.std.specs.Prelude.{◌≡◌, ◌+◌, ◌≤◌, IsTrue, IfOk, string_bytes, string_capacity, length};
ghost use Rattle.nsq_outside.specs.Causes.{DidFails, DidCounts};
ghost use Rattle.nsq_outside.specs.Files.{Renames};
ghost use Rattle.queue_image.specs.FileNames.{data_file, set_aside};

use nsq_core::Memory;
use nsq_outside::{Did, Folder};
use queue_files::DataName;
use std::alloc::Global;
use std::marker::Model;

/// The names of a queue's data files and of those that are set aside, in room that was made for all of them. It is seen as the
/// queue's name.
#[derive(Drop)]
pub struct Names {
    // The data file that is spoken of.
    data: DataName,
    // Its name once it is set aside.
    aside: String,
}

impl Model for Names {
    ghost use Rattle.std.specs.Prelude.{List, ℕ, ◌+◌, ◌≤◌, string_capacity, length};

    ghost Value = { List ℕ };

    ghost view = { λ n. n.data.name };

    ghost invariant = { λ n. length n.data.name + 39 ≤ string_capacity n.aside };
}

// How much longer than the queue's name the name of a file that was set aside may be.
const ROOM: usize = 39;

impl Names {
    /// The names of the files of a queue.
    pub fn new(alloc: Global, name: &str) -> Result<Names, Memory>
        ensures { IfOk result (λ names. names ≡ name.now) }
    {
        Ok(Names {
            data: DataName::new(alloc, name)?,
            aside: String::with_capacity(alloc, name.len() + ROOM)?,
        })
    }

    /// Adds `.bad` to the name of a data file, in place of a file that has that name. Takes no memory.
    pub(crate) fn set_aside<F: Folder>(&mut self, folder: &mut F, number: u64) -> Did
        ensures name { self.new ≡ self.old }
        ensures files { IsTrue F.tells_files → Renames (F.files folder.old) (F.files folder.new) (data_file self.old number) (set_aside (data_file self.old number)) result }
        ensures faults { F.folder_faults folder.old ≤ F.folder_faults folder.new }
        ensures cause { DidFails (F.folder_faults folder.old) (F.folder_faults folder.new) result }
        ensures exact { IsTrue F.counts_exactly → DidCounts (F.folder_faults folder.old) (F.folder_faults folder.new) result }
    {
        self.data.turn_to(number);
        let file = self.data.as_str();
        spell_aside(&mut self.aside, file);
        folder.rename(file, self.aside.as_str())
    }
}

// Spells the name of a file that is set aside, in room that is there.
fn spell_aside(aside: &mut String, file: &str)
    requires { length file.now + 4 ≤ string_capacity aside.old }
    ensures name { string_bytes aside.new ≡ set_aside file.now }
    ensures room { string_capacity aside.old ≤ string_capacity aside.new }
{
    aside.clear();
    let _ = aside.push_str(file);
    let _ = aside.push_str(".bad");
}
