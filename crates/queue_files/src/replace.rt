ghost use Rattle.std.specs.Prelude.{◌≢◌, ◌≤◌, IsTrue};
ghost use Rattle.nsq_outside.specs.Causes.{DidFails, DidCounts};
ghost use Rattle.nsq_outside.specs.Files.{OnlyChanges, Renames};
ghost use Rattle.queue_files.specs.Replaced.{Writes, Replaces, OnlyTwoChange};

use nsq_outside::{Did, Folder};

/// Writes the bytes to a temporary file and makes them durable, and before that the names of the folder. What the temporary had is
/// gone.
pub fn write_temp<F: Folder>(folder: &mut F, temp: &str, bytes: &[u8]) -> Did
    ensures bytes { IsTrue F.tells_files → Writes (F.files folder.new temp.now) bytes.now result }
    ensures others { IsTrue F.tells_files → OnlyChanges (F.files folder.old) (F.files folder.new) temp.now }
    ensures faults { F.folder_faults folder.old ≤ F.folder_faults folder.new }
    ensures cause { DidFails (F.folder_faults folder.old) (F.folder_faults folder.new) result }
    ensures exact { IsTrue F.counts_exactly → DidCounts (F.folder_faults folder.old) (F.folder_faults folder.new) result }
{
    match folder.sync_names() {
        Did::Done => {}
        Did::Failed => return Did::Failed,
    }
    match folder.cut(temp, 0) {
        Did::Done => {}
        Did::Failed => return Did::Failed,
    }
    match folder.write_at(temp, 0, bytes) {
        Did::Done => {}
        Did::Failed => return Did::Failed,
    }
    folder.sync(temp)
}

/// Gives a temporary file the name of another, in that one's place, and makes the names durable.
pub fn switch<F: Folder>(folder: &mut F, temp: &str, name: &str) -> Did
    requires { temp.now ≢ name.now }
    ensures files { IsTrue F.tells_files → Renames (F.files folder.old) (F.files folder.new) temp.now name.now result }
    ensures faults { F.folder_faults folder.old ≤ F.folder_faults folder.new }
    ensures cause { DidFails (F.folder_faults folder.old) (F.folder_faults folder.new) result }
    ensures exact { IsTrue F.counts_exactly → DidCounts (F.folder_faults folder.old) (F.folder_faults folder.new) result }
{
    match folder.rename(temp, name) {
        Did::Done => {}
        Did::Failed => return Did::Failed,
    }
    folder.sync_names()
}

/// Replaces a file's content by way of a temporary one, so that the file has the old content or these bytes at every moment.
pub fn replace_file<F: Folder>(folder: &mut F, name: &str, temp: &str, bytes: &[u8]) -> Did
    requires { temp.now ≢ name.now }
    ensures content { IsTrue F.tells_files → Replaces (F.files folder.old) (F.files folder.new) name.now temp.now bytes.now result }
    ensures others { IsTrue F.tells_files → OnlyTwoChange (F.files folder.old) (F.files folder.new) name.now temp.now }
    ensures faults { F.folder_faults folder.old ≤ F.folder_faults folder.new }
    ensures cause { DidFails (F.folder_faults folder.old) (F.folder_faults folder.new) result }
    ensures exact { IsTrue F.counts_exactly → DidCounts (F.folder_faults folder.old) (F.folder_faults folder.new) result }
{
    match write_temp(folder, temp, bytes) {
        Did::Done => {}
        Did::Failed => return Did::Failed,
    }
    switch(folder, temp, name)
}
