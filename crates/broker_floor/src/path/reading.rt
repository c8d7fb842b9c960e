ghost use Rattle.std.specs.Prelude.{◌≡◌, ◌<◌, ◌≤◌, ℕ, IfErr, IfOk, IsTrue, List, [], Some, length, option_map};
ghost use Rattle.nsq_outside.specs.Files.{SameFiles};
ghost use Rattle.path_image.specs.Data.{IsNames, data_name, last_epoch};
ghost use Rattle.names_file.specs.Kept.{CanKeepAll};
ghost use Rattle.names_file.specs.Texts.{kept_of};
ghost use Rattle.names_reading.specs.Durable.{AreDurable};
ghost use Rattle.broker_floor.specs.Adding.{IsReady, IsUnread, IsWhyUnread, why_unswept};
ghost use Rattle.broker_floor.specs.Opening.{IsRefusal, KeepsIn};

use daemon_endings::Why;
use names_file::{LONGEST_NAMES, NAMES};
use names_reading::{ListedNames, Unread, read_names};
use nsq_base::Memory;
use nsq_outside::{Folder, Length, ReadAt};
use queue_sweep::{Unswept, set_aside_unlisted};
use std::alloc::Global;

// The last epoch.
const LAST_EPOCH: u32 = 16_777_215;

/// Reads the file of names, and sets the files aside of queues that it doesn't list. Refused, the folder shows what it showed.
pub(crate) fn prepare<F: Folder>(alloc: Global, folder: &mut F) -> Result<ListedNames, Why>
    ensures ready { IsTrue F.tells_files → IfOk result (λ names. IsReady names (F.files folder.old) (F.files folder.new)) }
    ensures below { IfOk result (λ names. names.epoch < last_epoch) }
    ensures can { IfOk result (λ names. CanKeepAll names.topics) }
    ensures durable { IfOk result (λ names. AreDurable names.topics) }
    ensures refused { IfErr result (λ why. IsRefusal why F.tells_files (F.files folder.old) (F.files folder.new) (F.folder_faults folder.old) (F.folder_faults folder.new)) }
    ensures faults { F.folder_faults folder.old ≤ F.folder_faults folder.new }
{
    let names = match read_listed(alloc, folder) {
        Ok(names) => names,
        Err(why) => return Err(why),
    };
    if names.epoch >= LAST_EPOCH {
        return Err(Why::EpochSpent);
    }
    match set_aside_unlisted(alloc, folder, &names.topics) {
        Ok(()) => Ok(names),
        Err(unswept) => Err(why_unswept(unswept)),
    }
}

// Why a folder isn't opened whose files weren't set aside.
fn why_unswept(unswept: Unswept) -> Why
    ensures { result ≡ why_unswept unswept }
{
    match unswept {
        Unswept::Fault => Why::Fault,
        Unswept::Memory => Why::Memory,
    }
}

// What the file of names keeps; epoch 0 and no topic where there is none. No file changes.
fn read_listed<F: Folder>(alloc: Global, folder: &mut F) -> Result<ListedNames, Why>
    ensures keeps { IsTrue F.tells_files → IfOk result (λ names. KeepsIn (F.files folder.old) names) }
    ensures can { IfOk result (λ names. CanKeepAll names.topics) }
    ensures durable { IfOk result (λ names. AreDurable names.topics) }
    ensures same { IsTrue F.tells_files → SameFiles (F.files folder.old) (F.files folder.new) }
    ensures why { IfErr result (λ why. IsUnread why F.tells_files (F.files folder.old) (F.folder_faults folder.old) (F.folder_faults folder.new)) }
    ensures faults { F.folder_faults folder.old ≤ F.folder_faults folder.new }
{
    let found = match read_text(alloc, folder) {
        Ok(found) => found,
        Err(why) => return Err(why),
    };
    match found {
        Some(text) => read_kept(alloc, &text),
        None => Ok(nothing(alloc)),
    }
}

// Epoch 0 and no topic.
fn nothing(alloc: Global) -> ListedNames
    ensures is { result ≡ kept_of 0 [] }
{
    ListedNames {
        epoch: 0,
        topics: Vec::new(alloc),
    }
}

// What the text keeps.
fn read_kept(alloc: Global, text: &[u8]) -> Result<ListedNames, Why>
    ensures names { IfOk result (λ names. IsNames text.now names) }
    ensures can { IfOk result (λ names. CanKeepAll names.topics) }
    ensures durable { IfOk result (λ names. AreDurable names.topics) }
    ensures why { IfErr result (λ why. IsWhyUnread text.now why) }
{
    match read_names(alloc, text) {
        Ok(names) => Ok(names),
        Err(Unread::Bad) => Err(Why::BadData),
        Err(Unread::Memory) => Err(Why::Memory),
    }
}

// The bytes of the file of names, where there is one and it isn't too long to keep anything. No file changes.
fn read_text<F: Folder>(alloc: Global, folder: &mut F) -> Result<Option<Vec<u8>>, Why>
    ensures text { IsTrue F.tells_files → IfOk result (λ text. F.files folder.old data_name ≡ option_map (λ t. t.items) text) }
    ensures same { IsTrue F.tells_files → SameFiles (F.files folder.old) (F.files folder.new) }
    ensures why { IfErr result (λ why. IsUnread why F.tells_files (F.files folder.old) (F.folder_faults folder.old) (F.folder_faults folder.new)) }
    ensures faults { F.folder_faults folder.old ≤ F.folder_faults folder.new }
{
    match folder.len(NAMES) {
        Length::Is(length) => {
            if length > LONGEST_NAMES as u64 {
                return Err(Why::BadData);
            }
            match read_bytes(alloc, folder, length as usize) {
                Ok(text) => Ok(Some(text)),
                Err(why) => Err(why),
            }
        }
        Length::Absent => Ok(None),
        Length::Failed => Err(Why::Fault),
    }
}

// The bytes of the file of names, which has so many. No file changes.
fn read_bytes<F: Folder>(alloc: Global, folder: &mut F, count: usize) -> Result<Vec<u8>, Why>
    ensures text { IsTrue F.tells_files → IfOk result (λ text. (bytes : List ℕ) → F.files folder.old data_name ≡ Some bytes → length bytes ≡ count → text.items ≡ bytes) }
    ensures same { IsTrue F.tells_files → SameFiles (F.files folder.old) (F.files folder.new) }
    ensures why { IfErr result (λ why. IsUnread why F.tells_files (F.files folder.old) (F.folder_faults folder.old) (F.folder_faults folder.new)) }
    ensures faults { F.folder_faults folder.old ≤ F.folder_faults folder.new }
{
    let Ok(mut text) = zeros(alloc, count) else {
        return Err(Why::Memory);
    };
    match folder.read_at(NAMES, 0, &mut text) {
        ReadAt::Got(count) => {
            text.truncate(count);
            Ok(text)
        }
        ReadAt::Failed => Err(Why::Fault),
    }
}

// So many zeros.
fn zeros(alloc: Global, count: usize) -> Result<Vec<u8>, Memory>
    ensures { IfOk result (λ zeros. length zeros.items ≡ count) }
{
    Ok(vec![in alloc; 0u8; count]?)
}
