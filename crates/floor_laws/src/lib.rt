//! What a floor rests on, as laws: what its channels keep changes and counts as the channels of a state do, and what stands in a turn before its act.
//! Each function's contract is a law, and its body is empty. `turns` has what a turn notes, and what follows from that.
#![tactic(auto)]

pub mod turns;

ghost use Rattle.floor_laws.specs.Lifting.{SendsLift, FinishesLift, TouchesLift, GivesBackLift, TimesOutLift, ComesDueLift, HoldsBackLift, GetsLift, SameIsKept, NewIsKept, EmptiedIsKept, PausedIsKept, DueCanMove, DueCanCome, AnyCanJoin};
ghost use Rattle.floor_laws.specs.Counts.{KeptCountsAlike, LiveTestsAlike, NoneIsDue, NoneCanBeSent};
ghost use Rattle.floor_laws.specs.Paying.{MovesAreCounted, StuckIsSeen, StuckIsLast};

/// Each row of a channel over what is kept of it is that row over the state's copies.
pub fn rows()
    ensures sends { SendsLift }
    ensures finishes { FinishesLift }
    ensures touches { TouchesLift }
    ensures gives_back { GivesBackLift }
    ensures times_out { TimesOutLift }
    ensures comes_due { ComesDueLift }
    ensures holds_back { HoldsBackLift }
    ensures gets { GetsLift }
{}

/// What is kept stays so where it isn't changed, where it is made anew, where it is emptied, and where the channel is paused.
pub fn kept()
    ensures same { SameIsKept }
    ensures new { NewIsKept }
    ensures emptied { EmptiedIsKept }
    ensures paused { PausedIsKept }
{}

/// What a fault kept off could have been done.
pub fn possible()
    ensures times_out { DueCanMove }
    ensures comes_due { DueCanCome }
    ensures joins { AnyCanJoin }
{}

/// What is counted of what is kept is counted of the state's copies.
pub fn counts()
    ensures alike { KeptCountsAlike }
    ensures tests { LiveTestsAlike }
    ensures none_due { NoneIsDue }
    ensures none_sent { NoneCanBeSent }
{}

/// In a turn whose moves are due ones, then perhaps a stuck one, and then held back ones, what stands before the act is what was laid there.
pub fn payments()
    ensures moves { MovesAreCounted }
    ensures stuck { StuckIsSeen }
    ensures last { StuckIsLast }
{}
