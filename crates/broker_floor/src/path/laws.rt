//! What follows from the definitions alone: the function's contract is a law, and its body is empty.

ghost use Rattle.broker_floor.specs.Closings.{NamesAreThoseOfStates};

/// What the file of names keeps of a floor's hall is what is to be kept of each state that the hall stands for.
pub fn names_are_kept()
    ensures { NamesAreThoseOfStates }
{}
