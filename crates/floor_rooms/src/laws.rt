//! What lists of clients become: each function's contract is a law, and its body is empty.

ghost use Rattle.floor_rooms.specs.Laws.{StandingIsExchanged, BelongingIsInserted, StandingGoes, PutsKeepOrder, GoingsKeepOrder, PutIsFound, GoneIsNotFound, ChangedIsFound};

/// A client is put, and goes, at its place; the others stay, in their order, and are found as before.
pub fn places()
    ensures exchanged { StandingIsExchanged }
    ensures inserted { BelongingIsInserted }
    ensures goes { StandingGoes }
    ensures put_in_order { PutsKeepOrder }
    ensures gone_in_order { GoingsKeepOrder }
    ensures put_found { PutIsFound }
    ensures gone_not_found { GoneIsNotFound }
    ensures changed_found { ChangedIsFound }
{}
