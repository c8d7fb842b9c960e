ghost use Rattle.std.specs.Prelude.{◌≡◌, ◌≢◌, ◌+◌, ◌-◌, ◌^◌, ◌≤◌, ◌<◌, ◌↔◌, IsTrue, min};
ghost use Rattle.std.specs.List.{Any};
ghost use Rattle.nsq_fakes.specs.Failings.{Hits, count_of, CountsCall};

/// A method of `Folder`, or `Any` of them.
#[derive(Clone, Copy, PartialEq)]
pub enum FolderCall {
    List,
    Len,
    ReadAt,
    WriteAt,
    Cut,
    Sync,
    SyncNames,
    Rename,
    Remove,
    Any,
}

/// Calls that fail: those of a method whose numbers are at least `from` and below `to`.
///
/// The calls of each method are counted from 0, and so are the calls of all methods together, for `FolderCall::Any`.
#[derive(Clone, Copy)]
pub struct Failing {
    pub call: FolderCall,
    pub from: u64,
    pub to: u64,
}

impl Failing {
    /// Whether the next call of a method is among these, as the calls so far are counted.
    fn hits(&self, counts: &Counts, call: FolderCall) -> bool
        ensures { IsTrue result ↔ Hits counts.now call self.now }
    {
        let number = counts.of(self.call);
        (self.call == call || self.call == FolderCall::Any)
            && self.from <= number
            && number < self.to
    }
}

/// How many calls of each method were made, and of all.
#[derive(Drop)]
pub struct Counts {
    list: u64,
    len: u64,
    read_at: u64,
    write_at: u64,
    cut: u64,
    sync: u64,
    sync_names: u64,
    rename: u64,
    remove: u64,
    any: u64,
}

impl Counts {
    /// No call yet.
    pub(crate) fn new() -> Counts
        ensures { (call : FolderCall) → count_of result call ≡ 0 }
    {
        Counts {
            list: 0,
            len: 0,
            read_at: 0,
            write_at: 0,
            cut: 0,
            sync: 0,
            sync_names: 0,
            rename: 0,
            remove: 0,
            any: 0,
        }
    }

    /// How many calls of a method were made.
    fn of(&self, call: FolderCall) -> u64
        ensures { result ≡ count_of self.now call }
    {
        match call {
            FolderCall::List => self.list,
            FolderCall::Len => self.len,
            FolderCall::ReadAt => self.read_at,
            FolderCall::WriteAt => self.write_at,
            FolderCall::Cut => self.cut,
            FolderCall::Sync => self.sync,
            FolderCall::SyncNames => self.sync_names,
            FolderCall::Rename => self.rename,
            FolderCall::Remove => self.remove,
            FolderCall::Any => self.any,
        }
    }

    /// Counts one more call of a method. A count stops at the end of its type.
    fn raise(&mut self, call: FolderCall)
        ensures here { count_of self.new call ≡ min (count_of self.old call + 1) (2 ^ 64 - 1) }
        ensures others { (other : FolderCall) → other ≢ call → count_of self.new other ≡ count_of self.old other }
    {
        match call {
            FolderCall::List => self.list = self.list.saturating_add(1),
            FolderCall::Len => self.len = self.len.saturating_add(1),
            FolderCall::ReadAt => self.read_at = self.read_at.saturating_add(1),
            FolderCall::WriteAt => self.write_at = self.write_at.saturating_add(1),
            FolderCall::Cut => self.cut = self.cut.saturating_add(1),
            FolderCall::Sync => self.sync = self.sync.saturating_add(1),
            FolderCall::SyncNames => self.sync_names = self.sync_names.saturating_add(1),
            FolderCall::Rename => self.rename = self.rename.saturating_add(1),
            FolderCall::Remove => self.remove = self.remove.saturating_add(1),
            FolderCall::Any => self.any = self.any.saturating_add(1),
        }
    }

    /// Counts a call of a method, and answers whether it is among those that fail.
    pub(crate) fn count(&mut self, fails: &[Failing], call: FolderCall) -> bool
        requires { call ≢ FolderCall.Any }
        ensures fails { IsTrue result ↔ Any (Hits self.old call) fails.now }
        ensures counted { CountsCall self.old self.new call }
    {
        let fails_now = fails.iter().any(|failing| failing.hits(self, call));
        self.raise(call);
        self.raise(FolderCall::Any);
        fails_now
    }
}
