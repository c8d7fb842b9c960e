ghost use Rattle.std.specs.Prelude.{◌≡◌, ◌^◌, ◌<◌, IfOk, MatchOption, string_bytes};
ghost use Rattle.queue_image.specs.FileNames.{file_beginning, data_file, meta_file, meta_temp, set_aside, channel_queue};
ghost use Rattle.queue_image.specs.Answered.{NumbersFile, MayNumber};

use crate::decimals::value_up_to;
use nsq_core::Memory;
use std::alloc::Global;

/// How the name of each file of a queue begins: `name.diskqueue.`.
pub fn file_beginning(alloc: Global, name: &str) -> Result<String, Memory>
    ensures { IfOk result (λ beginning. string_bytes beginning ≡ file_beginning name.now) }
{
    Ok(format!(in alloc; "{name}.diskqueue.")?)
}

/// The name of a queue's data file: `name.diskqueue.NNNNNN.dat`, with six digits, and more only where the number needs more.
pub fn data_file(alloc: Global, name: &str, number: u64) -> Result<String, Memory>
    ensures { IfOk result (λ file. string_bytes file ≡ data_file name.now number) }
{
    Ok(format!(in alloc; "{name}.diskqueue.{number:06}.dat")?)
}

/// The name of a queue's metadata: `name.diskqueue.meta.dat`.
pub fn meta_file(alloc: Global, name: &str) -> Result<String, Memory>
    ensures { IfOk result (λ file. string_bytes file ≡ meta_file name.now) }
{
    Ok(format!(in alloc; "{name}.diskqueue.meta.dat")?)
}

/// The name of the metadata while it is written: `name.diskqueue.meta.dat.tmp`.
pub fn meta_temp(alloc: Global, name: &str) -> Result<String, Memory>
    ensures { IfOk result (λ file. string_bytes file ≡ meta_temp name.now) }
{
    Ok(format!(in alloc; "{name}.diskqueue.meta.dat.tmp")?)
}

/// The name that a bad or surplus file is given: its own with `.bad` behind it.
pub fn set_aside(alloc: Global, file: &str) -> Result<String, Memory>
    ensures { IfOk result (λ aside. string_bytes aside ≡ set_aside file.now) }
{
    Ok(format!(in alloc; "{file}.bad")?)
}

/// The name of a channel's queue: `topic:channel`.
pub fn channel_queue(alloc: Global, topic: &str, channel: &str) -> Result<String, Memory>
    ensures { IfOk result (λ name. string_bytes name ≡ channel_queue topic.now channel.now) }
{
    Ok(format!(in alloc; "{topic}:{channel}")?)
}

/// The number of a queue's data file, by the file's name; None exactly where it is no name of a data file of this queue.
pub fn number_of(alloc: Global, name: &str, file: &[u8]) -> Result<Option<u64>, Memory>
    ensures { IfOk result (λ number. NumbersFile name.now file.now number) }
{
    let Some(number) = digits_in(name, file) else {
        return Ok(None);
    };
    if data_file(alloc, name, number)?.as_bytes() == file {
        Ok(Some(number))
    } else {
        Ok(None)
    }
}

// The number that the digits spell, where the name is built as that of a data file. Such a name may have too few digits or too many.
fn digits_in(name: &str, file: &[u8]) -> Option<u64>
    ensures { MayNumber name.now file.now result }
{
    let rest = file.strip_prefix(name.as_bytes())?;
    let rest = rest.strip_prefix(b".diskqueue.")?;
    let digits = rest.strip_suffix(b".dat")?;
    value_up_to(digits, u64::MAX)
}
