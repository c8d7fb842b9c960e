ghost use Rattle.std.specs.Prelude.{◌≡◌, ◌≢◌, ◌+◌, ◌^◌, ◌≤◌, ◌⊎◌, ◌++◌, ◌∷◌, [], List, ℕ, length, Contains, IfOk, IfErr, OnOk, OnErr, IsSome, IsTrue, AllPairs, None, Some, false, map, string_bytes};
ghost use Rattle.nsq_system.specs.OpenFiles.{IsClosed};
ghost use Rattle.nsq_system.specs.KnownNames.{Knows, OnlyChanges, OnlyMoves, ArePart, AreForgotten};
ghost use Rattle.std.specs.IoError.{error_kind};
ghost use Rattle.std.specs.Map.{lookup};
ghost use Rattle.std.specs.Str.{bytes_eq};

use crate::answers::{PartRead, after_read};
use crate::known_names::{KnownNames, add_to};
use lru::LruCache;
use nsq_core::Memory;
use std::alloc::{AllocError, Allocator, Global};
use std::collections::BTreeSet;
use std::fs::{DirEntry, FileType, OpenFile, OpenOptions};
use std::io::ErrorKind;
use std::num::NonZeroUsize;
use std::os::unix::fs::FileExt;
use std::rt::Files;
use std::{fs, io};

/// How many files stay open. The least recently used one is closed for a new one.
const OPEN_FILES: usize = 32;

/// The most bytes that a file may have.
pub const LIMIT: u64 = 1 << 62;

/// The files of a folder on disk, some of them open.
///
/// Each call says by `ErrorKind::NotFound` that a file is absent. A file is closed when it is renamed or removed, when another
/// takes its name, and after each error of a call on it.
///
/// The names are read from the folder when they are listed first. From then on they are kept in step with the calls here, and
/// a listing by a beginning reads the folder again only after a call whose outcome isn't known.
#[derive(Drop)]
pub struct OpenFiles<R: Files> {
    rt: R,
    alloc: Global,
    /// The folder's path, with a slash at its end.
    folder: String,
    /// Room for the paths of files, which are written anew at each call.
    path: String,
    new_path: String,
    opened: LruCache<String, R::File>,
    known: KnownNames,
}

impl<R: Files + Drop> OpenFiles<R> {
    /// The files of the folder at a path. It asks nothing of the system.
    pub(crate) fn new(rt: R, alloc: Global, path: &str) -> Result<OpenFiles<R>, Memory>
        ensures path { IfOk result (λ files. string_bytes files.folder ≡ path.now ++ 47 ∷ []) }
        ensures closed { IfOk result (λ files. files.opened.entries ≡ []) }
        ensures unknown { IfOk result (λ files. files.known.names ≡ None) }
    {
        let (folder, opened) = begin(alloc, path)?;
        Ok(OpenFiles {
            rt,
            alloc,
            folder,
            path: String::new(alloc),
            new_path: String::new(alloc),
            opened,
            known: KnownNames::new(alloc),
        })
    }
}

impl<R: Files> OpenFiles<R> {
    /// Opens a file to read and write, which keeps its bytes. The name of one that it makes is known then.
    fn open(&mut self, name: &str, creates: bool) -> io::Result<()>
        ensures folder { self.new.folder ≡ self.old.folder }
        ensures known { creates ≡ false → self.new.known ≡ self.old.known }
        ensures here { OnOk result (IsTrue creates → IsClosed self.old.opened.entries name.now → IsSome self.new.known.names → Knows self.new.known.names name.now) }
        ensures unknown { IsTrue creates → IfErr result (AreForgotten self.new.known.names) }
        ensures others { OnlyChanges self.old.known.names self.new.known.names name.now }
    {
        if self.opened.contains(name) {
            return Ok(());
        }
        set_path(&mut self.path, self.folder.as_str(), name)?;
        let made = open_file(&self.rt, self.path.as_str(), creates);
        keep_made(
            &mut self.opened,
            &mut self.known,
            self.alloc,
            name,
            creates,
            made,
        )
    }

    /// Goes to the folder at another path, closes the files of this one and forgets its names. Without memory nothing changes.
    pub(crate) fn move_to(&mut self, path: &str) -> Result<(), Memory>
        ensures path { OnOk result (string_bytes self.new.folder ≡ path.now ++ 47 ∷ []) }
        ensures closed { OnOk result (self.new.opened.entries ≡ []) }
        ensures unknown { OnOk result (self.new.known.names ≡ None) }
        ensures err { OnErr result (self.new ≡ self.old) }
    {
        let folder = with_slash(self.alloc, path)?;
        self.opened.clear();
        self.known.forget();
        self.folder = folder;
        Ok(())
    }
}

impl<R: Files + AllocGlobal + Clone + Drop> OpenFiles<R> {
    /// The names of the regular files that begin so, in order. It reads the folder where the beginning is empty, or the
    /// names aren't known.
    pub(crate) fn names(&mut self, alloc: Global, beginning: &str) -> io::Result<Vec<String>>
        ensures part { IfOk result (λ names. ArePart self.new.known.names beginning.now (map string_bytes names.items)) }
        ensures once { IfOk result (λ names. AllPairs (λ a b. a ≢ b) (map string_bytes names.items)) }
        ensures known { OnOk result (IsSome self.new.known.names) }
        ensures folder { self.new.folder ≡ self.old.folder }
    {
        let learnt = self.learn_names(beginning.is_empty());
        part_if(&self.known, alloc, beginning, learnt)
    }

    /// Sees to it that the names are known. Anew it reads the folder also where they are.
    fn learn_names(&mut self, anew: bool) -> io::Result<()>
        ensures known { OnOk result (IsSome self.new.known.names) }
        ensures folder { self.new.folder ≡ self.old.folder }
    {
        if !anew && self.known.are_known() {
            return Ok(());
        }
        let names = read_names(&self.rt, self.alloc, self.folder.as_str());
        self.known.begin_anew(names)
    }
}

impl<R: Files> OpenFiles<R> {
    /// The number of bytes of a file. It is an error where there are more than 2^62.
    pub(crate) fn len(&mut self, name: &str) -> io::Result<u64>
        ensures limit { IfOk result (λ n. n ≤ 2 ^ 62) }
        ensures closed { OnErr result (IsClosed self.new.opened.entries name.now) }
        ensures folder { self.new.folder ≡ self.old.folder }
        ensures known { self.new.known ≡ self.old.known }
    {
        let ready = self.open(name, false);
        let length = opened_length(&mut self.opened, name, ready);
        settled(&mut self.opened, name, length)
    }
}

impl<R: Files> OpenFiles<R>
where
    R::File: FileExt,
{
    /// Reads the bytes from a place on, as many as fit and stand there. It is an error where they end past 2^62.
    pub(crate) fn read_at(&mut self, name: &str, at: u64, into: &mut [u8]) -> io::Result<usize>
        ensures amount { IfOk result (λ n. n ≤ length into.old) }
        ensures limit { IfOk result (λ n. (n ≡ 0) ⊎ (at + n ≤ 2 ^ 62)) }
        ensures closed { OnErr result (IsClosed self.new.opened.entries name.now) }
        ensures folder { self.new.folder ≡ self.old.folder }
        ensures known { self.new.known ≡ self.old.known }
    {
        let ready = self.open(name, false);
        let count = read_opened(&mut self.opened, name, ready, at, into);
        settled(&mut self.opened, name, count)
    }

    /// Writes bytes at a place, all of them. The file reaches up to the place, also where there are none.
    pub(crate) fn write_at(&mut self, name: &str, at: u64, from: &[u8]) -> io::Result<()>
        ensures limit { OnOk result (at + length from.now ≤ 2 ^ 62) }
        ensures closed { OnErr result (IsClosed self.new.opened.entries name.now) }
        ensures folder { self.new.folder ≡ self.old.folder }
        ensures others { OnlyChanges self.old.known.names self.new.known.names name.now }
    {
        let written = self.write(name, at, from);
        settled(&mut self.opened, name, written)
    }

    /// Writes bytes at a place, after the file was opened.
    fn write(&mut self, name: &str, at: u64, from: &[u8]) -> io::Result<()>
        ensures limit { OnOk result (at + length from.now ≤ 2 ^ 62) }
        ensures folder { self.new.folder ≡ self.old.folder }
        ensures others { OnlyChanges self.old.known.names self.new.known.names name.now }
    {
        if at > LIMIT || from.len() as u64 > LIMIT - at {
            return Err(ErrorKind::FileTooLarge.into());
        }
        if from.is_empty() {
            return self.lengthen(name, at);
        }
        let ready = self.open(name, true);
        write_if(&mut self.opened, name, ready, from, at)
    }
}

impl<R: Files> OpenFiles<R> {
    /// Gives a file at least a number of bytes, with zeros behind those that it has. It creates an absent file.
    fn lengthen(&mut self, name: &str, to: u64) -> io::Result<()>
        ensures folder { self.new.folder ≡ self.old.folder }
        ensures others { OnlyChanges self.old.known.names self.new.known.names name.now }
    {
        let ready = self.open(name, true);
        match opened_length(&mut self.opened, name, ready) {
            Ok(length) if length < to => self.cut(name, to),
            Ok(_) => Ok(()),
            Err(error) => Err(error),
        }
    }

    /// Gives a file a number of bytes. It creates an absent file, which is removed again where it can't have so many.
    pub(crate) fn cut(&mut self, name: &str, to: u64) -> io::Result<()>
        ensures limit { OnOk result (to ≤ 2 ^ 62) }
        ensures closed { OnErr result (IsClosed self.new.opened.entries name.now) }
        ensures folder { self.new.folder ≡ self.old.folder }
        ensures others { OnlyChanges self.old.known.names self.new.known.names name.now }
    {
        let cut = self.cut_or_create(name, to);
        settled(&mut self.opened, name, cut)
    }

    /// Gives a file a number of bytes, or makes an absent one of so many zeros. Where it can't have them it is removed again.
    fn cut_or_create(&mut self, name: &str, to: u64) -> io::Result<()>
        ensures limit { OnOk result (to ≤ 2 ^ 62) }
        ensures folder { self.new.folder ≡ self.old.folder }
        ensures others { OnlyChanges self.old.known.names self.new.known.names name.now }
    {
        if to > LIMIT {
            return Err(ErrorKind::FileTooLarge.into());
        }
        match self.set_len(name, to, false) {
            Err(error) if error.kind() == ErrorKind::NotFound => {}
            outcome => return outcome,
        }
        let made = self.set_len(name, to, true);
        if made.is_err() {
            let _ = self.remove(name);
        }
        made
    }

    /// Gives a file a number of bytes, after it was opened.
    fn set_len(&mut self, name: &str, to: u64, creates: bool) -> io::Result<()>
        ensures folder { self.new.folder ≡ self.old.folder }
        ensures others { OnlyChanges self.old.known.names self.new.known.names name.now }
    {
        let ready = self.open(name, creates);
        set_len_if(&mut self.opened, name, ready, to)
    }

    /// Makes the bytes of a file durable.
    pub(crate) fn sync(&mut self, name: &str) -> io::Result<()>
        ensures closed { OnErr result (IsClosed self.new.opened.entries name.now) }
        ensures folder { self.new.folder ≡ self.old.folder }
        ensures known { self.new.known ≡ self.old.known }
    {
        let ready = self.open(name, false);
        sync_if(&mut self.opened, name, ready)
    }

    /// Makes the names durable.
    pub(crate) fn sync_names(&self) -> io::Result<()> {
        fs::open(&self.rt, self.folder.as_str())?.sync_all()
    }

    /// Gives the file `from` the name `to`. Neither is open then.
    pub(crate) fn rename(&mut self, from: &str, to: &str) -> io::Result<()>
        ensures closed { IsClosed self.new.opened.entries from.now }
        ensures replaced { IsClosed self.new.opened.entries to.now }
        ensures folder { self.new.folder ≡ self.old.folder }
        ensures gone { OnOk result (from.now ≢ to.now → Knows self.new.known.names from.now → ⊥) }
        ensures here { OnOk result (IsSome self.new.known.names → Knows self.new.known.names to.now) }
        ensures unknown { IfErr result (AreForgotten self.new.known.names) }
        ensures others { OnlyMoves self.old.known.names self.new.known.names from.now to.now }
    {
        forget(&mut self.opened, from);
        forget(&mut self.opened, to);
        set_path(&mut self.path, self.folder.as_str(), from)?;
        set_path(&mut self.new_path, self.folder.as_str(), to)?;
        let renamed = self.rt.rename(self.path.as_str(), self.new_path.as_str());
        self.known.note_renamed(from, to, &renamed);
        renamed
    }

    /// Removes a file. It isn't open then.
    pub(crate) fn remove(&mut self, name: &str) -> io::Result<()>
        ensures closed { IsClosed self.new.opened.entries name.now }
        ensures folder { self.new.folder ≡ self.old.folder }
        ensures gone { OnOk result (Knows self.new.known.names name.now → ⊥) }
        ensures unknown { IfErr result (AreForgotten self.new.known.names) }
        ensures others { OnlyChanges self.old.known.names self.new.known.names name.now }
    {
        forget(&mut self.opened, name);
        set_path(&mut self.path, self.folder.as_str(), name)?;
        let removed = self.rt.remove_file(self.path.as_str());
        self.known.note_removed(name, &removed);
        removed
    }
}

/// A folder's path with a slash at its end, and no open files.
fn begin<F>(alloc: Global, path: &str) -> Result<(String, LruCache<String, F>), Memory>
    ensures path { IfOk result (λ begun. string_bytes begun.0 ≡ path.now ++ 47 ∷ []) }
    ensures closed { IfOk result (λ begun. begun.1.entries ≡ []) }
{
    let folder = with_slash(alloc, path)?;
    let most = NonZeroUsize::new(OPEN_FILES).unwrap();
    Ok((folder, LruCache::new(alloc, most)?))
}

/// A path with a slash at its end.
fn with_slash(alloc: Global, path: &str) -> Result<String, AllocError>
    ensures { IfOk result (λ folder. string_bytes folder ≡ path.now ++ 47 ∷ []) }
{
    let mut folder = String::from_str(alloc, path)?;
    folder.push('/')?;
    Ok(folder)
}

/// Opens the file at a path to read and write, and keeps its bytes.
fn open_file<R: Files>(rt: &R, path: &str, creates: bool) -> io::Result<R::File> {
    let mut how = OpenOptions::new();
    how.read(true).write(true).create(creates);
    rt.open_file(&how, path)
}

/// Notes the outcome of a call that opens a file, and keeps it among those that are open.
fn keep_made<F: Drop>(
    opened: &mut LruCache<String, F>,
    known: &mut KnownNames,
    alloc: Global,
    name: &str,
    creates: bool,
    made: io::Result<F>,
) -> io::Result<()>
    ensures known { creates ≡ false → known.new ≡ known.old }
    ensures here { OnOk result (IsTrue creates → IsSome known.new.names → Knows known.new.names name.now) }
    ensures unknown { IsTrue creates → IfErr result (AreForgotten known.new.names) }
    ensures others { OnlyChanges known.old.names known.new.names name.now }
{
    if creates {
        known.note_made(name, &made);
    }
    keep_open(opened, alloc, name, made?)
}

/// Keeps a file among those that are open.
fn keep_open<F: Drop>(
    opened: &mut LruCache<String, F>,
    alloc: Global,
    name: &str,
    file: F,
) -> io::Result<()>
    ensures { IfErr result (λ error. error_kind error ≡ ErrorKind.OutOfMemory) }
{
    opened.put(String::from_str(alloc, name)?, file)?;
    Ok(())
}

/// Closes a file, where it's open.
fn forget<F: Drop>(opened: &mut LruCache<String, F>, name: &str)
    ensures closed { IsClosed opened.new.entries name.now }
    ensures others { (other : List ℕ) → IsClosed opened.old.entries other → IsClosed opened.new.entries other }
{
    // Its contract says that no name is there twice.
    let _ = opened.len();
    let _ = opened.pop(name);
}

/// The outcome of a call on a file, which is closed after an error.
fn settled<F: Drop, T>(
    opened: &mut LruCache<String, F>,
    name: &str,
    outcome: io::Result<T>,
) -> io::Result<T>
    ensures same { result ≡ outcome }
    ensures closed { OnErr result (IsClosed opened.new.entries name.now) }
{
    if outcome.is_err() {
        forget(opened, name);
    }
    outcome
}

/// The names that begin so, after they were learnt.
fn part_if(
    known: &KnownNames,
    alloc: Global,
    beginning: &str,
    learnt: io::Result<()>,
) -> io::Result<Vec<String>>
    ensures part { IfOk result (λ names. ArePart known.now.names beginning.now (map string_bytes names.items)) }
    ensures once { IfOk result (λ names. AllPairs (λ a b. a ≢ b) (map string_bytes names.items)) }
    ensures known { OnOk learnt (IsSome known.now.names) → OnOk result (IsSome known.now.names) }
{
    learnt?;
    Ok(known.beginning_with(alloc, beginning)?)
}

/// Reads the names of the regular files from a folder.
fn read_names<R: Files + AllocGlobal + Clone + Drop>(
    rt: &R,
    alloc: Global,
    folder: &str,
) -> io::Result<BTreeSet<String>> {
    let entries = fs::read_dir(rt, folder)?;
    let mut names = BTreeSet::new(alloc);
    for entry in entries {
        note_entry(&mut names, alloc, entry)?;
    }
    Ok(names)
}

/// Adds the name of an entry that is a regular file. One whose name isn't UTF-8 is passed over.
fn note_entry<R: Files + Drop, A: Allocator>(
    names: &mut BTreeSet<String>,
    alloc: Global,
    entry: io::Result<DirEntry<R, A>>,
) -> io::Result<()> {
    match entry {
        Ok(entry) => note_file(names, alloc, entry.file_type(), entry.file_name()),
        Err(error) => unless_foreign(error),
    }
}

/// Adds a name, where it is that of a regular file.
fn note_file(
    names: &mut BTreeSet<String>,
    alloc: Global,
    kind: io::Result<FileType>,
    name: &str,
) -> io::Result<()> {
    if kind?.is_file() {
        add_to(alloc, names, name)?;
    }
    Ok(())
}

/// A name that isn't UTF-8 is no error.
fn unless_foreign(error: io::Error) -> io::Result<()> {
    match error.kind() {
        ErrorKind::InvalidFilename => Ok(()),
        _ => Err(error),
    }
}

/// A file that was opened, or why it wasn't. It becomes the most recently used one.
fn opened_file<'a, F>(
    opened: &'a mut LruCache<String, F>,
    name: &str,
    ready: io::Result<()>,
) -> io::Result<&'a F>
    ensures { IfOk result (λ file. lookup (λ key. bytes_eq name.now (string_bytes key)) opened.old.entries ≡ Some file.now) }
{
    ready?;
    match opened.get(name) {
        Some(file) => Ok(file),
        None => Err(ErrorKind::Other.into()),
    }
}

/// The number of bytes of a file that was opened. It is an error where there are more than 2^62.
fn opened_length<F: OpenFile>(
    opened: &mut LruCache<String, F>,
    name: &str,
    ready: io::Result<()>,
) -> io::Result<u64>
    ensures { IfOk result (λ n. n ≤ 2 ^ 62) }
{
    let length = opened_file(opened, name, ready)?.metadata()?.len();
    if length > LIMIT {
        return Err(ErrorKind::FileTooLarge.into());
    }
    Ok(length)
}

/// Reads from a file that was opened. It is an error where the bytes end past 2^62.
fn read_opened<F: FileExt>(
    opened: &mut LruCache<String, F>,
    name: &str,
    ready: io::Result<()>,
    at: u64,
    into: &mut [u8],
) -> io::Result<usize>
    ensures amount { IfOk result (λ n. n ≤ length into.old) }
    ensures limit { IfOk result (λ n. (n ≡ 0) ⊎ (at + n ≤ 2 ^ 62)) }
{
    match opened_file(opened, name, ready) {
        Ok(file) => read_whole(file, at, into),
        Err(error) => Err(error),
    }
}

/// Writes bytes at a place of a file that was opened, all of them.
fn write_if<F: FileExt>(
    opened: &mut LruCache<String, F>,
    name: &str,
    ready: io::Result<()>,
    from: &[u8],
    at: u64,
) -> io::Result<()> {
    match opened_file(opened, name, ready) {
        Ok(file) => file.write_all_at(from, at),
        Err(error) => Err(error),
    }
}

/// Gives a file that was opened a number of bytes.
fn set_len_if<F: OpenFile>(
    opened: &mut LruCache<String, F>,
    name: &str,
    ready: io::Result<()>,
    to: u64,
) -> io::Result<()> {
    match opened_file(opened, name, ready) {
        Ok(file) => file.set_len(to),
        Err(error) => Err(error),
    }
}

/// Makes the bytes of a file that was opened durable. It is closed after an error.
fn sync_if<F: OpenFile + Drop>(
    opened: &mut LruCache<String, F>,
    name: &str,
    ready: io::Result<()>,
) -> io::Result<()>
    ensures { OnErr result (IsClosed opened.new.entries name.now) }
{
    let synced = match opened_file(opened, name, ready) {
        Ok(file) => file.sync_all(),
        Err(error) => Err(error),
    };
    settled(opened, name, synced)
}

/// Writes the path of a file. A name with a slash would leave the folder, and is refused.
fn set_path(path: &mut String, folder: &str, name: &str) -> io::Result<()>
    ensures path { OnOk result (string_bytes path.new ≡ folder.now ++ name.now) }
    ensures slash { Contains name.now 47 → OnOk result ⊥ }
    ensures kind { IfErr result (λ error. (error_kind error ≡ ErrorKind.InvalidInput) ⊎ (error_kind error ≡ ErrorKind.OutOfMemory)) }
{
    if name.as_bytes().contains(&b'/') {
        return Err(ErrorKind::InvalidInput.into());
    }
    path.clear();
    path.push_str(folder)?;
    path.push_str(name)?;
    Ok(())
}

/// Reads from a place on until the buffer is full or the file ends. It is an error where the bytes end past 2^62.
fn read_whole<F: FileExt>(file: &F, at: u64, into: &mut [u8]) -> io::Result<usize>
    ensures amount { IfOk result (λ n. n ≤ length into.old) }
    ensures limit { IfOk result (λ n. (n ≡ 0) ⊎ (at + n ≤ 2 ^ 62)) }
{
    if at > LIMIT {
        return Ok(0);
    }
    let mut got = 0;
    for _ in 0..u64::MAX {
        if got == into.len() {
            break;
        }
        match after_read(file.read_at(&mut into[got..], at.saturating_add(got as u64))) {
            PartRead::Got(count) => got += count,
            PartRead::End => break,
            PartRead::Interrupted => {}
            PartRead::Failed(error) => return Err(error),
        }
    }
    if got > 0 && at.saturating_add(got as u64) > LIMIT {
        return Err(ErrorKind::FileTooLarge.into());
    }
    Ok(got)
}
