//! Files by name, each in a `Vec`.
ghost use Rattle.std.specs.Prelude.{◌≡◌, ◌+◌, ◌-◌, ◌^◌, ◌≤◌, ◌<◌, ◌↔◌, Err, ◌++◌, [], List, ℕ, length, take, drop, min, map, OnOk, OnErr, IfOk, Some, None, option_copied, option_map, IsSome, unwrap_or, string_bytes};
ghost use Rattle.nsq_outside.specs.Files.{SameFiles, IsListing, AppendsListing, IsRenamed, cut_to, written_at};
ghost use Rattle.nsq_fakes.specs.MemFiles.{files_of, Sets, first_of, GrowsTo, MovesToNew};

use std::alloc::{AllocError, AllocFailed, Global};
use std::collections::BTreeMap;

/// The most bytes that a file may have.
pub const LIMIT: u64 = 1 << 62;

/// Why a file can't be changed.
#[derive(Clone, Copy)]
pub enum NoRoom {
    /// It would have more than 2^62 bytes.
    TooLong,
    /// Want of memory.
    Memory,
}

impl From<AllocError> for NoRoom {
    ghost use Rattle.nsq_fakes.specs.declared.files.NoRoom.{NoRoom};

    ghost from_gives = { λ _ reason. reason ≡ NoRoom.Memory };

    fn from(_: AllocError) -> NoRoom {
        NoRoom::Memory
    }
}

impl<T: Drop> From<AllocFailed<T>> for NoRoom {
    ghost use Rattle.nsq_fakes.specs.declared.files.NoRoom.{NoRoom};

    ghost from_gives = { λ _ reason. reason ≡ NoRoom.Memory };

    fn from(_: AllocFailed<T>) -> NoRoom {
        NoRoom::Memory
    }
}

/// Makes files of a list. Of several of one name the first counts.
pub fn made_of(
    alloc: Global,
    mut list: Vec<(String, Vec<u8>)>,
) -> Result<BTreeMap<String, Vec<u8>>, AllocError>
    ensures { IfOk result (λ files. (name : List ℕ) → files_of files name ≡ first_of list.items name) }
{
    let mut files = BTreeMap::new(alloc);
    while let Some((name, bytes)) = list.pop() {
        files.insert(name, bytes)?;
    }
    Ok(files)
}

/// The bytes of a file; none of an absent one.
pub fn bytes_at<'a>(files: &'a BTreeMap<String, Vec<u8>>, name: &str) -> &'a [u8]
    ensures { result.now ≡ unwrap_or (files_of files.now name.now) [] }
{
    match files.get(name) {
        Some(bytes) => bytes,
        None => &[],
    }
}

/// How many bytes from a place on stand there and fit.
pub fn amount_at(bytes: &[u8], at: u64, room: usize) -> usize
    ensures { result ≡ min room (length bytes.now - at) }
{
    (bytes.len() as u64).saturating_sub(at).min(room as u64) as usize
}

/// Copies bytes from a place on to the start of `into`, as many as fit and stand there, and answers how many.
pub fn copy_from_place(bytes: &[u8], at: u64, into: &mut [u8]) -> usize
    ensures amount { result ≡ min (length into.old) (length bytes.now - at) }
    ensures copied { into.new ≡ take result (drop at bytes.now) ++ drop result into.old }
{
    if at >= bytes.len() as u64 {
        return 0;
    }
    let rest = &bytes[at as usize..];
    let count = rest.len().min(into.len());
    into[..count].copy_from_slice(&rest[..count]);
    count
}

/// Gives a file its first bytes, and zeros where it was shorter, in place. Only to grow wants memory, without which the file stays.
fn fit(file: &mut Vec<u8>, to: usize) -> Result<(), AllocError>
    ensures ok { OnOk result (file.new.items ≡ cut_to file.old.items to) }
    ensures err { OnErr result (file.new.items ≡ file.old.items) }
    ensures grows { OnErr result (length file.old.items < to) }
{
    if to <= file.len() {
        file.truncate(to);
        return Ok(());
    }
    file.resize(to, 0)
}

/// Writes bytes over those of a file, from a place on.
fn overwrite(file: &mut Vec<u8>, at: usize, from: &[u8])
    requires { at + length from.now ≤ length file.old.items }
    ensures { file.new.items ≡ take at file.old.items ++ from.now ++ drop (at + length from.now) file.old.items }
{
    file.slice_mut(at..at + from.len()).copy_from_slice(from);
}

/// Writes bytes at a place of a file, in place. Only to grow wants memory, without which the file stays.
fn write_over(file: &mut Vec<u8>, at: usize, from: &[u8]) -> Result<(), AllocError>
    requires { at + length from.now ≤ 2 ^ 62 }
    ensures ok { OnOk result (file.new.items ≡ written_at file.old.items at from.now) }
    ensures err { OnErr result (file.new.items ≡ file.old.items) }
    ensures grows { OnErr result (length file.old.items < at + length from.now) }
{
    let end = at + from.len();
    if end > file.len() {
        fit(file, end)?;
    }
    overwrite(file, at, from);
    Ok(())
}

/// A file that bytes at a place were written to, with zeros before them.
fn written(alloc: Global, at: usize, from: &[u8]) -> Result<Vec<u8>, AllocError>
    requires { at + length from.now ≤ 2 ^ 62 }
    ensures { IfOk result (λ file. file.items ≡ written_at [] at from.now) }
{
    let mut file = Vec::new(alloc);
    write_over(&mut file, at, from)?;
    Ok(file)
}

/// A file of so many zeros.
fn zeros(alloc: Global, count: usize) -> Result<Vec<u8>, AllocError>
    ensures { IfOk result (λ file. file.items ≡ cut_to [] count) }
{
    let mut file = Vec::new(alloc);
    fit(&mut file, count)?;
    Ok(file)
}

/// Gives the file of a name these bytes. Without memory nothing changes.
fn put_in(
    alloc: Global,
    files: &mut BTreeMap<String, Vec<u8>>,
    name: &str,
    bytes: Vec<u8>,
) -> Result<(), AllocError>
    ensures ok { OnOk result (Sets (files_of files.old) (files_of files.new) name.now (Some bytes.items)) }
    ensures err { OnErr result (SameFiles (files_of files.old) (files_of files.new)) }
{
    files.insert(String::from_str(alloc, name)?, bytes)?;
    Ok(())
}

/// Writes bytes at a place of the file of a name, which it creates. Without room nothing changes.
pub fn write(
    alloc: Global,
    files: &mut BTreeMap<String, Vec<u8>>,
    name: &str,
    at: u64,
    from: &[u8],
) -> Result<(), NoRoom>
    ensures fits { OnOk result (at + length from.now ≤ 2 ^ 62) }
    ensures too_long { (result ≡ Err NoRoom.TooLong) ↔ (2 ^ 62 < at + length from.now) }
    ensures ok { OnOk result (Sets (files_of files.old) (files_of files.new) name.now (Some (written_at (unwrap_or (files_of files.old name.now) []) at from.now))) }
    ensures err { OnErr result (SameFiles (files_of files.old) (files_of files.new)) }
    ensures grows { OnErr result (GrowsTo (files_of files.old name.now) (at + length from.now)) }
{
    if at > LIMIT || from.len() as u64 > LIMIT - at {
        return Err(NoRoom::TooLong);
    }
    match files.get_mut(name) {
        Some(file) => write_over(file, at as usize, from)?,
        None => put_in(alloc, files, name, written(alloc, at as usize, from)?)?,
    }
    Ok(())
}

/// Gives the file of a name its first bytes, and zeros where it was shorter. It creates an absent file. Without room nothing changes.
pub fn cut(
    alloc: Global,
    files: &mut BTreeMap<String, Vec<u8>>,
    name: &str,
    to: u64,
) -> Result<(), NoRoom>
    ensures fits { OnOk result (to ≤ 2 ^ 62) }
    ensures too_long { (result ≡ Err NoRoom.TooLong) ↔ (2 ^ 62 < to) }
    ensures ok { OnOk result (Sets (files_of files.old) (files_of files.new) name.now (Some (cut_to (unwrap_or (files_of files.old name.now) []) to))) }
    ensures err { OnErr result (SameFiles (files_of files.old) (files_of files.new)) }
    ensures grows { OnErr result (GrowsTo (files_of files.old name.now) to) }
{
    if to > LIMIT {
        return Err(NoRoom::TooLong);
    }
    match files.get_mut(name) {
        Some(file) => fit(file, to as usize)?,
        None => put_in(alloc, files, name, zeros(alloc, to as usize)?)?,
    }
    Ok(())
}

/// Appends the name of each file whose name begins with `beginning` once. Without memory the names are as before.
pub fn append_names(
    alloc: Global,
    files: &BTreeMap<String, Vec<u8>>,
    beginning: &str,
    names: &mut Vec<String>,
) -> Result<(), AllocError>
    ensures ok { OnOk result (AppendsListing (files_of files.now) beginning.now names.old.items names.new.items) }
    ensures err { OnErr result (names.new.items ≡ names.old.items) }
{
    let mut added = names_of(alloc, files, beginning)?;
    names.append(&mut added)
}

/// The name of each file whose name begins with `beginning`.
fn names_of(
    alloc: Global,
    files: &BTreeMap<String, Vec<u8>>,
    beginning: &str,
) -> Result<Vec<String>, AllocError>
    ensures { IfOk result (λ names. IsListing (files_of files.now) beginning.now (map string_bytes names.items)) }
{
    let mut names = Vec::new(alloc);
    for name in files.keys() {
        if name.as_bytes().starts_with(beginning.as_bytes()) {
            names.push(name.clone()?)?;
        }
    }
    Ok(names)
}

/// Makes an empty file of a name where there is none. Without memory nothing changes.
fn create(
    alloc: Global,
    files: &mut BTreeMap<String, Vec<u8>>,
    name: &str,
) -> Result<(), AllocError>
    ensures ok { OnOk result (Sets (files_of files.old) (files_of files.new) name.now (Some (unwrap_or (files_of files.old name.now) []))) }
    ensures err { OnErr result (SameFiles (files_of files.old) (files_of files.new)) }
    ensures absent { OnErr result (files_of files.old name.now ≡ None) }
{
    if !files.contains_key(name) {
        put_in(alloc, files, name, Vec::new(alloc))?;
    }
    Ok(())
}

/// Gives a file that is there these bytes.
fn replace(files: &mut BTreeMap<String, Vec<u8>>, name: &str, bytes: Vec<u8>)
    requires { IsSome (files_of files.old name.now) }
    ensures { Sets (files_of files.old) (files_of files.new) name.now (Some bytes.items) }
{
    if let Some(file) = files.get_mut(name) {
        *file = bytes;
    }
}

/// Removes the file of a name, where there is one, and gives its bytes.
fn take_out(files: &mut BTreeMap<String, Vec<u8>>, name: &str) -> Option<Vec<u8>>
    ensures file { option_map (λ bytes. bytes.items) result ≡ files_of files.old name.now }
    ensures gone { Sets (files_of files.old) (files_of files.new) name.now None }
{
    files.remove(name)
}

/// Gives the file `from` the name `to`. Without memory nothing changes.
pub fn rename(
    alloc: Global,
    files: &mut BTreeMap<String, Vec<u8>>,
    from: &str,
    to: &str,
) -> Result<(), NoRoom>
    ensures ok { OnOk result (IsRenamed (files_of files.old) (files_of files.new) from.now to.now) }
    ensures err { OnErr result (SameFiles (files_of files.old) (files_of files.new)) }
    ensures moves { OnErr result (MovesToNew (files_of files.old) from.now to.now) }
{
    if from == to || !files.contains_key(from) {
        return Ok(());
    }
    // The new name is there before the old one goes, so that no step after this one wants memory.
    create(alloc, files, to)?;
    if let Some(bytes) = take_out(files, from) {
        replace(files, to, bytes);
    }
    Ok(())
}

/// Removes the file of a name, where there is one.
pub fn remove(files: &mut BTreeMap<String, Vec<u8>>, name: &str)
    ensures { Sets (files_of files.old) (files_of files.new) name.now None }
{
    let _ = take_out(files, name);
}
