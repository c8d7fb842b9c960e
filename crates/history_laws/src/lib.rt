//! What follows from the definitions of histories alone (`broker_history`), as laws: each function's contract is one, and its body is empty.
//!
//! No program stands on this crate, so none waits for its proof. Lemmas that other crates cite too stand in `broker_history`.
#![tactic(auto)]

ghost use Rattle.history_laws.specs.Laws.{HistoriesJoin, FrontsAreLegal, MomentsNeverFall, StopsAreOnce, FaultsAreApartButOne, OwnEntriesJoin, CommonEntriesAreNobodys, OnlyGonesTell, GonesTell, OthersAreNotGone, TalksStay, TalksWithoutGone, TalksWithGone, CopiesHaveOnePlace, SentWithinReady, TurnsHaveReadings, StartsFromFound, LiveMovesAreMoves, LiveJoinsAreJoins, LiveCountsAreCounts, KeptIsTaken};
ghost use Rattle.history_laws.specs.Scripts.{TalksTakeCommandsInOrder, FinishedTalksTakeAll};

/// Legal histories join, each front of one is legal, its moments never fall, it has one Stop at most, and of its disk faults at
/// most one stands just before that.
pub fn histories()
    ensures join { HistoriesJoin }
    ensures fronts { FrontsAreLegal }
    ensures moments { MomentsNeverFall }
    ensures stops { StopsAreOnce }
    ensures faults { FaultsAreApartButOne }
{}

/// A conversation in a history depends on the connection's own entries, and on whether a Stop stands before its Gone. Both stay as
/// they are where entries of others follow, so it stays a conversation; and a conversation by the own entries is one in the history.
pub fn connections()
    ensures own { OwnEntriesJoin }
    ensures common { CommonEntriesAreNobodys }
    ensures only_gones { OnlyGonesTell }
    ensures gones { GonesTell }
    ensures others { OthersAreNotGone }
    ensures stay { TalksStay }
    ensures without_gone { TalksWithoutGone }
    ensures with_gone { TalksWithGone }
{}

/// A conversation takes the commands of its bytes in order, however they come in rounds, and all of them where it comes to the end of
/// the input.
pub fn talks()
    ensures in_order { TalksTakeCommandsInOrder }
    ensures all { FinishedTalksTakeAll }
{}

/// A copy has one place, for as long as its channel is there, and each message is sent within its client's RDY.
pub fn copies()
    ensures one_place { CopiesHaveOnePlace }
    ensures credit { SentWithinReady }
{}

/// The moments of entries follow the readings of a clock.
pub fn moments()
    ensures { TurnsHaveReadings }
{}

/// A run starts from what its opening found.
pub fn starts()
    ensures { StartsFromFound }
{}

/// What a channel or a topic of the program keeps moves as a state's does.
pub fn kept()
    ensures moves { LiveMovesAreMoves }
    ensures joins { LiveJoinsAreJoins }
    ensures counts { LiveCountsAreCounts }
    ensures taken { KeptIsTaken }
{}
