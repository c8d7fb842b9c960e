//! What holds of the files of queues whatever they are, as laws: each function's contract is one, and its body is empty.
//!
//! Most follow from the definitions of `queue_image` alone; `queues` is of the queues of a folder (`disk_queue`), `listed_queues_stay`
//! and `unlisted_queues_are_empty` of a sweep (`queue_sweep`). No program stands on this crate, so none waits for its proof. Lemmas that
//! other crates cite too stand in those three.
#![tactic(auto)]

ghost use Rattle.queue_laws.specs.Laws.{FilesAreApart, ChannelsAreApart, TopicsAreNoChannels, NumbersAreApart, MetadataIsApart, AsideIsApart, FilesHaveLongNames};
ghost use Rattle.queue_laws.specs.Laws.{RowsAreUnique, RowsAreWhole, DamageIsUnique, RowsGrow};
ghost use Rattle.queue_laws.specs.Laws.{BetweenIsUnique, BetweenIsOrdered, EmptyIsAtEnd, TakingMoves, ReadingTurns, WritingAppends, WritingTurns, BetweenKeeps, ReadingJoins, ReadingKeeps, GoodIsRead};
ghost use Rattle.queue_laws.specs.Laws.{MetaIsUnique, MetaReadsBack, FindingIsUnique, FindingKeeps, ListIsFound, SavedIsFound, FoundIsBetween, FoundIsKept};
ghost use Rattle.queue_laws.specs.Queues.{HoldingKeeps, StandingKeeps, OthersStay};
ghost use Rattle.queue_laws.specs.Sweeps.{ListedFilesStay, ListedMessagesStay, ShortNamesStay, FindingStays, UnlistedHaveNoFiles, UnlistedHaveNoMessages};

/// No file belongs to two queues, no two channels and no topic and a channel share a queue's name, and the files of one queue
/// have names of their own, of 19 bytes at least.
pub fn names()
    ensures files { FilesAreApart }
    ensures channels { ChannelsAreApart }
    ensures topics { TopicsAreNoChannels }
    ensures numbers { NumbersAreApart }
    ensures metadata { MetadataIsApart }
    ensures aside { AsideIsApart }
    ensures long { FilesHaveLongNames }
{}

/// Bytes are a row of records in one way, or damaged at one place, and never both.
pub fn records()
    ensures unique { RowsAreUnique }
    ensures whole { RowsAreWhole }
    ensures damage { DamageIsUnique }
    ensures grow { RowsGrow }
{}

/// The list between two positions is one and depends on the queue's own files alone; and how it changes where a record is written
/// or taken, also from file to file.
pub fn lists()
    ensures unique { BetweenIsUnique }
    ensures ordered { BetweenIsOrdered }
    ensures empty { EmptyIsAtEnd }
    ensures keeps { BetweenKeeps }
    ensures first { TakingMoves }
    ensures next_file { ReadingTurns }
    ensures last { WritingAppends }
    ensures new_file { WritingTurns }
{}

/// What is read by sizes joins at its ends, and depends on no other bytes than those that it goes over; a good file is read from
/// its part's start to its end.
pub fn reading()
    ensures joins { ReadingJoins }
    ensures keeps { ReadingKeeps }
    ensures good { GoodIsRead }
{}

/// A text is metadata in one way, and what a queue writes is read back.
pub fn metadata()
    ensures unique { MetaIsUnique }
    ensures reads_back { MetaReadsBack }
{}

/// An opening finds one thing, which depends on the queue's own files alone; it finds the list between the positions of the
/// metadata, and no bad file, where there is such a list, as where one is saved. What it finds is read as well once the bad files
/// count as empty.
pub fn openings()
    ensures unique { FindingIsUnique }
    ensures keeps { FindingKeeps }
    ensures list { ListIsFound }
    ensures saved { SavedIsFound }
    ensures between { FoundIsBetween }
    ensures kept { FoundIsKept }
{}

/// What a queue's files hold, and what its last save left, depends on the queue's own files alone, and these stay where only the
/// files of another queue change.
pub fn queues()
    ensures holding { HoldingKeeps }
    ensures standing { StandingKeeps }
    ensures others { OthersStay }
{}

/// A sweep leaves every file of a listed queue as it was, and each file of a short name, as the file of names is; so an opening
/// finds what it found before.
pub fn listed_queues_stay()
    ensures files { ListedFilesStay }
    ensures messages { ListedMessagesStay }
    ensures short { ShortNamesStay }
    ensures finding { FindingStays }
{}

/// Where only listed queues have files, any other queue is empty: whoever makes its topic or channel anew begins with no message.
pub fn unlisted_queues_are_empty()
    ensures files { UnlistedHaveNoFiles }
    ensures messages { UnlistedHaveNoMessages }
{}
