ghost use Rattle.floor_turns.specs.Turns.{TurnLeads, TurnTies};
ghost use Rattle.floor_turns.specs.Leads.{LeadsFollow, LeadsStay};
ghost use Rattle.floor_turns.specs.Paying.{PaidMayAct, PaidMayStop};

/// What was paid allows the act of a turn, and a Stop unless more was to be paid.
pub fn payments()
    ensures act { PaidMayAct }
    ensures stop { PaidMayStop }
{}

/// No turn leads where one is, and turns and then turns lead where all lead.
pub fn leads()
    ensures stay { LeadsStay }
    ensures follow { LeadsFollow }
{}

/// One turn leads where turns of its number lead, and ties a hall's clients and its Stop to its history still.
pub fn once()
    ensures leads { TurnLeads }
    ensures ties { TurnTies }
{}
