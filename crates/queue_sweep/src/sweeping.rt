ghost use Rattle.std.specs.Prelude.{◌≡◌, ◌≤◌, IsTrue, IfErr, OnOk, string_bytes};
ghost use Rattle.nsq_outside.specs.Causes.{Rose};
ghost use Rattle.nsq_outside.specs.Files.{SameFiles};
ghost use Rattle.queue_image.specs.FileNames.{set_aside};
ghost use Rattle.names_file.specs.Kept.{CanKeepAll};
ghost use Rattle.queue_sweep.specs.Swept.{IsSweptTo, HasOnlyListed};
ghost use Rattle.queue_sweep.specs.Steps.{SweepsOne, AreGone, SweepCounts};

use crate::Unswept;
use crate::listed::is_unlisted;
use names_file::KeptTopic;
use nsq_base::Memory;
use nsq_outside::{Did, Folder, Listing};
use std::alloc::Global;

/// Adds `.bad` to the name of each file that has the form of a queue's data file or metadata while no topic of these and no
/// channel of theirs has that queue. A file that has the new name is replaced. Where a file was renamed, the names are made durable.
///
/// The topics are in byte order of their names, each once, and so are the channels of each, as in a file of names. It is to be
/// called before their queues are opened: a queue's files that are read or written after that stay as they were.
///
/// After an error some of the files are set aside, and the others as they were.
pub fn set_aside_unlisted<F: Folder>(
    alloc: Global,
    folder: &mut F,
    listed: &[KeptTopic],
) -> Result<(), Unswept>
    requires kept { CanKeepAll listed.now }
    ensures swept { IsTrue F.tells_files → IsSweptTo listed.now (F.files folder.old) (F.files folder.new) }
    ensures only { IsTrue F.tells_files → OnOk result (HasOnlyListed listed.now (F.files folder.new)) }
    ensures faults { F.folder_faults folder.old ≤ F.folder_faults folder.new }
    ensures cause { IfErr result (λ e. e ≡ Unswept.Fault → Rose (F.folder_faults folder.old) (F.folder_faults folder.new)) }
    ensures exact { IsTrue F.counts_exactly → SweepCounts (F.folder_faults folder.old) (F.folder_faults folder.new) result }
{
    let mut files = Vec::new(alloc);
    match folder.list(alloc, "", &mut files) {
        Listing::Done => {}
        Listing::Failed => return Err(Unswept::Fault),
        Listing::Memory => return Err(Unswept::Memory),
    }
    match sweep(alloc, folder, listed, &files) {
        Ok(true) => keep_names(folder),
        Ok(false) => Ok(()),
        Err(why) => Err(why),
    }
}

// Sets aside the unlisted ones of these files, one after the other, up to a failure. Ok says whether there was one.
fn sweep<F: Folder>(
    alloc: Global,
    folder: &mut F,
    listed: &[KeptTopic],
    files: &[String],
) -> Result<bool, Unswept>
    requires kept { CanKeepAll listed.now }
    ensures swept { IsTrue F.tells_files → IsSweptTo listed.now (F.files folder.old) (F.files folder.new) }
    ensures gone { IsTrue F.tells_files → OnOk result (AreGone listed.now files.now (F.files folder.new)) }
    ensures faults { F.folder_faults folder.old ≤ F.folder_faults folder.new }
    ensures cause { IfErr result (λ e. e ≡ Unswept.Fault → Rose (F.folder_faults folder.old) (F.folder_faults folder.new)) }
    ensures exact { IsTrue F.counts_exactly → SweepCounts (F.folder_faults folder.old) (F.folder_faults folder.new) result }
{
    let mut aside = String::new(alloc);
    let mut any = false;
    for file in files {
        match sweep_one(folder, listed, file.as_str(), &mut aside) {
            Ok(moved) => any |= moved,
            Err(why) => return Err(why),
        }
    }
    Ok(any)
}

// Sets a file aside where it is unlisted. Ok says whether it is. The new name is spelled into `aside`.
fn sweep_one<F: Folder>(
    folder: &mut F,
    listed: &[KeptTopic],
    file: &str,
    aside: &mut String,
) -> Result<bool, Unswept>
    requires kept { CanKeepAll listed.now }
    ensures step { IsTrue F.tells_files → SweepsOne listed.now file.now (F.files folder.old) (F.files folder.new) result }
    ensures faults { F.folder_faults folder.old ≤ F.folder_faults folder.new }
    ensures cause { IfErr result (λ e. e ≡ Unswept.Fault → Rose (F.folder_faults folder.old) (F.folder_faults folder.new)) }
    ensures exact { IsTrue F.counts_exactly → SweepCounts (F.folder_faults folder.old) (F.folder_faults folder.new) result }
{
    if !is_unlisted(listed, file) {
        return Ok(false);
    }
    if spell_aside(aside, file).is_err() {
        return Err(Unswept::Memory);
    }
    match folder.rename(file, aside.as_str()) {
        Did::Done => Ok(true),
        Did::Failed => Err(Unswept::Fault),
    }
}

// Spells the name of a file that is set aside.
fn spell_aside(aside: &mut String, file: &str) -> Result<(), Memory>
    ensures { OnOk result (string_bytes aside.new ≡ set_aside file.now) }
{
    aside.clear();
    aside.push_str(file)?;
    aside.push_str(".bad")?;
    Ok(())
}

// Makes the names of the files durable.
fn keep_names<F: Folder>(folder: &mut F) -> Result<(), Unswept>
    ensures same { IsTrue F.tells_files → SameFiles (F.files folder.old) (F.files folder.new) }
    ensures faults { F.folder_faults folder.old ≤ F.folder_faults folder.new }
    ensures cause { IfErr result (λ e. e ≡ Unswept.Fault → Rose (F.folder_faults folder.old) (F.folder_faults folder.new)) }
    ensures exact { IsTrue F.counts_exactly → SweepCounts (F.folder_faults folder.old) (F.folder_faults folder.new) result }
{
    match folder.sync_names() {
        Did::Done => Ok(()),
        Did::Failed => Err(Unswept::Fault),
    }
}
