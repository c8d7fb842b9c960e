ghost use Rattle.std.specs.Prelude.{◌≡◌, ◌≤◌, ◌++◌, List, length, ℕ, OnOk, OnErr};
ghost use Rattle.path_image.specs.Data.{IsNames, longest_data, names_text};
ghost use Rattle.nsq_base.specs.Name.{IsName};
ghost use Rattle.names_file.specs.Kept.{CanKeepAll};
ghost use Rattle.names_file.specs.Texts.{kept_of, channel_text, topic_text, list_text, end_text, comma_if};

use crate::append::append_all;
use crate::kept::{KeptChannel, KeptTopic};
use itoa::Buffer;
use nsq_base::Memory;
use std::alloc::Global;

/// Appends the text of the file of names, `nsqd.dat`: these topics and their channels in the order in which they are given,
/// and the epoch of the run as `id_epoch`. It is an object in JSON without spaces, its members in byte order; a name needs no
/// escape. Want of memory is the only error: then `out` is as before. Nothing is allocated but the growth of `out`. A text of at most 16 MiB keeps what it was
/// written of, where the names are good, each once and in byte order.
#[tactic(auto, using(crate::proofs::Keeping::text_keeps))]
pub fn write_names(
    _alloc: Global,
    epoch: u32,
    topics: &[KeptTopic],
    out: &mut Vec<u8>,
) -> Result<(), Memory>
    ensures ok { OnOk result (out.new.items ≡ out.old.items ++ names_text (kept_of epoch topics.now)) }
    ensures keeps { epoch ≤ 16777215 → CanKeepAll topics.now → length (names_text (kept_of epoch topics.now)) ≤ longest_data → IsNames (names_text (kept_of epoch topics.now)) (kept_of epoch topics.now) }
    ensures err { OnErr result (out.new.items ≡ out.old.items) }
{
    let before = out.len();
    let mut digits = Buffer::new();
    let epoch = digits.format(epoch).as_bytes();
    append_all(out, &[br#"{"id_epoch":"#, epoch])?;
    if write_list(br#","topics":"#, topics, out).is_err() {
        out.truncate(before);
        return Err(Memory);
    }
    if append_all(out, &[br#","version":"1.0.0"}"#]).is_err() {
        out.truncate(before);
        return Err(Memory);
    }
    Ok(())
}

/// What stands in a list of the file.
trait Item {
    /// Its text.
    ghost text: { Self → List ℕ };

    /// Appends its text, behind a comma where an item stands before it. After Memory `out` is as before.
    fn write(&self, later: bool, out: &mut Vec<u8>) -> Result<(), Memory>
        ensures ok { OnOk result (out.new.items ≡ out.old.items ++ (comma_if later ++ text self.now)) }
        ensures err { OnErr result (out.new.items ≡ out.old.items) };
}

impl Item for KeptChannel {
    ghost text = { channel_text };

    fn write(&self, later: bool, out: &mut Vec<u8>) -> Result<(), Memory> {
        let start: &[u8] = if later { b",{" } else { b"{" };
        write_end(start, self.channel.bytes(), self.paused, out)
    }
}

impl Item for KeptTopic {
    ghost text = { topic_text };

    fn write(&self, later: bool, out: &mut Vec<u8>) -> Result<(), Memory> {
        let before = out.len();
        let start: &[u8] = if later {
            br#",{"channels":"#
        } else {
            br#"{"channels":"#
        };
        write_list(start, &self.channels, out)?;
        if write_end(b",", self.topic.bytes(), self.paused, out).is_err() {
            out.truncate(before);
            return Err(Memory);
        }
        Ok(())
    }
}

/// Appends `start` and a list of the file: its items in brackets, with commas between. After Memory `out` is as before.
fn write_list<T: Item>(start: &[u8], items: &[T], out: &mut Vec<u8>) -> Result<(), Memory>
    ensures ok { OnOk result (out.new.items ≡ out.old.items ++ (start.now ++ list_text T.text items.now)) }
    ensures err { OnErr result (out.new.items ≡ out.old.items) }
{
    let before = out.len();
    append_all(out, &[start, b"["])?;
    let mut later = false;
    'items: for item in items {
        if item.write(later, out).is_err() {
            out.truncate(before);
            return Err(Memory);
        }
        later = true;
    }
    if append_all(out, &[b"]"]).is_err() {
        out.truncate(before);
        return Err(Memory);
    }
    Ok(())
}

/// Appends `start` and the end of an object of the file: a name, and whether it is paused. After Memory `out` is as before.
fn write_end(start: &[u8], name: &[u8], paused: bool, out: &mut Vec<u8>) -> Result<(), Memory>
    requires { IsName name.now }
    ensures ok { OnOk result (out.new.items ≡ out.old.items ++ (start.now ++ end_text name.now paused)) }
    ensures err { OnErr result (out.new.items ≡ out.old.items) }
{
    let flag: &[u8] = if paused { b"true" } else { b"false" };
    append_all(
        out,
        &[start, br#""name":""#, name, br#"","paused":"#, flag, b"}"],
    )
}
