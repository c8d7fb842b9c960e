ghost use Rattle.std.specs.Prelude.{◌≡◌, ◌≢◌, None, Some, true, OnOk, OnErr, IfOk, IfErr, IsSome, AllPairs, is_some, map, string_bytes};
ghost use Rattle.std.specs.IoError.{error_kind};
ghost use Rattle.nsq_system.specs.KnownNames.{Knows, OnlyChanges, OnlyMoves, ArePart, SetsName};

use std::alloc::{AllocError, Global};
use std::collections::BTreeSet;
use std::io;
use std::io::ErrorKind;

/// The names of a folder's files, in order, where they are known: all of them, or none.
#[derive(Drop)]
pub struct KnownNames {
    alloc: Global,
    names: Option<BTreeSet<String>>,
}

impl KnownNames {
    /// The names aren't known.
    pub(crate) fn new(alloc: Global) -> KnownNames
        ensures { result.names ≡ None }
    {
        KnownNames { alloc, names: None }
    }

    /// Whether the names are known.
    pub(crate) fn are_known(&self) -> bool
        ensures { result ≡ is_some self.now.names }
    {
        self.names.is_some()
    }

    /// Forgets the names.
    pub(crate) fn forget(&mut self)
        ensures { self.new.names ≡ None }
    {
        self.names = None;
    }

    /// Begins anew with the names that were read. After an error nothing changes.
    pub(crate) fn begin_anew(&mut self, read: io::Result<BTreeSet<String>>) -> io::Result<()>
        ensures read { IfOk read (λ names. self.new.names ≡ Some names) }
        ensures ok { OnOk result (IsSome self.new.names) }
        ensures err { OnErr result (self.new ≡ self.old) }
    {
        self.names = Some(read?);
        Ok(())
    }

    /// Adds a name where the names are known. Without memory it forgets them.
    fn add(&mut self, name: &str)
        ensures here { IsSome self.new.names → Knows self.new.names name.now }
        ensures others { OnlyChanges self.old.names self.new.names name.now }
    {
        if let Some(names) = &mut self.names
            && add_to(self.alloc, names, name).is_err()
        {
            self.names = None;
        }
    }

    /// Takes a name away.
    fn remove(&mut self, name: &str)
        ensures gone { Knows self.new.names name.now → ⊥ }
        ensures others { OnlyChanges self.old.names self.new.names name.now }
    {
        if let Some(names) = &mut self.names {
            names.remove(name);
        }
    }

    /// Notes the outcome of a call that makes a file where there is none. After an error it may be there or not, so the names
    /// are forgotten; where the folder is missing there is none.
    pub(crate) fn note_made<T>(&mut self, name: &str, outcome: &io::Result<T>)
        ensures here { OnOk outcome.now (IsSome self.new.names → Knows self.new.names name.now) }
        ensures absent { IfErr outcome.now (λ error. error_kind error ≡ ErrorKind.NotFound → Knows self.new.names name.now → ⊥) }
        ensures unknown { IfErr outcome.now (λ error. error_kind error ≢ ErrorKind.NotFound → self.new.names ≡ None) }
        ensures others { OnlyChanges self.old.names self.new.names name.now }
    {
        match outcome {
            Ok(_) => self.add(name),
            Err(error) if error.kind() == ErrorKind::NotFound => self.remove(name),
            Err(_) => self.forget(),
        }
    }

    /// Notes the outcome of a call that removes a file. After an error the names are forgotten; an absent file is gone.
    pub(crate) fn note_removed(&mut self, name: &str, outcome: &io::Result<()>)
        ensures gone { Knows self.new.names name.now → ⊥ }
        ensures unknown { IfErr outcome.now (λ error. error_kind error ≢ ErrorKind.NotFound → self.new.names ≡ None) }
        ensures others { OnlyChanges self.old.names self.new.names name.now }
    {
        match outcome {
            Ok(()) => self.remove(name),
            Err(error) if error.kind() == ErrorKind::NotFound => self.remove(name),
            Err(_) => self.forget(),
        }
    }

    /// Notes the outcome of a call that gives the file `from` the name `to`. After an error the names are forgotten; where
    /// there was no file `from`, that name is gone.
    pub(crate) fn note_renamed(&mut self, from: &str, to: &str, outcome: &io::Result<()>)
        ensures gone { from.now ≢ to.now → Knows self.new.names from.now → ⊥ }
        ensures here { OnOk outcome.now (IsSome self.new.names → Knows self.new.names to.now) }
        ensures stays { OnErr outcome.now (OnlyChanges self.old.names self.new.names from.now) }
        ensures unknown { IfErr outcome.now (λ error. error_kind error ≢ ErrorKind.NotFound → self.new.names ≡ None) }
        ensures others { OnlyMoves self.old.names self.new.names from.now to.now }
    {
        self.note_removed(from, outcome);
        if outcome.is_ok() {
            self.add(to);
        }
    }

    /// The names that are known and begin so, in order; none where the names aren't known.
    pub(crate) fn beginning_with(
        &self,
        alloc: Global,
        beginning: &str,
    ) -> Result<Vec<String>, AllocError>
        ensures part { IfOk result (λ found. ArePart self.now.names beginning.now (map string_bytes found.items)) }
        ensures once { IfOk result (λ found. AllPairs (λ a b. a ≢ b) (map string_bytes found.items)) }
    {
        match &self.names {
            Some(names) => part_of(alloc, names, beginning),
            None => Ok(Vec::new(alloc)),
        }
    }
}

/// Adds a name to a set, where it isn't there yet.
pub fn add_to(alloc: Global, names: &mut BTreeSet<String>, name: &str) -> Result<(), AllocError>
    ensures { OnOk result (SetsName names.old names.new name.now true) }
{
    if !names.contains(name) {
        names.insert(String::from_str(alloc, name)?)?;
    }
    Ok(())
}

/// The names of a set that begin so, in order.
fn part_of(
    alloc: Global,
    names: &BTreeSet<String>,
    beginning: &str,
) -> Result<Vec<String>, AllocError>
    ensures part { IfOk result (λ found. ArePart (Some names.now) beginning.now (map string_bytes found.items)) }
    ensures once { IfOk result (λ found. AllPairs (λ a b. a ≢ b) (map string_bytes found.items)) }
{
    let from = String::from_str(alloc, beginning)?;
    let mut found = Vec::new(alloc);
    for name in names.range(&from..) {
        if !name.as_bytes().starts_with(beginning.as_bytes()) {
            break;
        }
        found.push(name.clone()?)?;
    }
    Ok(found)
}
