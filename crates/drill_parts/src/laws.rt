//! The laws: each function's contract is one, and its body is empty.

ghost use Rattle.drill_parts.specs.Conserving.{MessagesAreConserved, OnesStay};
ghost use Rattle.drill_parts.specs.Publishing.{PublishersPublishAll, PubsAreAccepted};
ghost use Rattle.drill_parts.specs.Replying.{CommandsAreReplied, RunsStay};
ghost use Rattle.drill_parts.specs.Staying.{ClosedByStop, NobodyIsClosed};
ghost use Rattle.drill_parts.specs.Talking.{CallersGiveTheirCommands, ConversationsTalk, FinishedCallersGiveAll};

/// Where nothing is deleted or emptied, all names are durable and each topic has one channel at most, no message is lost or doubled: those that are left and
/// those that were finished are those that were left before and those that were published.
pub fn conservation()
    ensures sum { MessagesAreConserved }
    ensures ones { OnesStay }
{}

/// The entries of a conversation are those of its commands, and what is sent and told between. Of a caller that sends commands in their canonical spelling the
/// first ones are taken, and all where it comes to the end of its bytes.
pub fn callers()
    ensures talking { ConversationsTalk }
    ensures in_order { CallersGiveTheirCommands }
    ensures all { FinishedCallersGiveAll }
{}

/// Each command of a history is replied to by the table, and a history uses no more ids than it was to publish messages. Options and epoch stay.
pub fn replies()
    ensures commands { CommandsAreReplied }
    ensures stay { RunsStay }
{}

/// Where no time passes and nothing is deleted, no client is closed for its silence or for want of its channel. A caller that sends commands, of which none is
/// answered with what closes, is then closed by a Stop alone.
pub fn closings()
    ensures nobody { NobodyIsClosed }
    ensures stop { ClosedByStop }
{}

/// Where ids are left and no disk fault was met, each PUB is accepted. So a connection that alone publishes in a history publishes all that it was to, unless it
/// ended by a fault of its own, by a Stop or by want of memory.
pub fn publishes()
    ensures accepted { PubsAreAccepted }
    ensures all { PublishersPublishAll }
{}
