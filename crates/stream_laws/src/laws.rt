ghost use Rattle.stream_laws.specs.Laws.{CanonicalIsSpelling, NoSpellingBeginsAnother, OneVerdict, SpelledIsWhole, WholeIsSpelled, ScriptsGoOn, OneScript, EveryVerdict, EveryScript};

/// No spelling of a command begins another command's spelling, and equal bytes spell one command. It does nothing: its
/// contract is the law.
pub fn no_spelling_begins_another()
    ensures { NoSpellingBeginsAnother }
{}

/// Bytes at a command's start have at most one verdict: a whole command, one fault at one place, or unfinished.
pub fn one_verdict()
    ensures { OneVerdict }
{}

/// The verdict on bytes is a whole command exactly where they begin with a spelling of it.
pub fn whole_is_spelled()
    ensures spelled { SpelledIsWhole }
    ensures whole { WholeIsSpelled }
{}

/// The script of more bytes of a stream begins with the script of fewer, and a fault stays.
pub fn scripts_go_on()
    ensures { ScriptsGoOn }
{}

/// A stream has at most one script.
pub fn one_script()
    ensures { OneScript }
{}

/// All bytes have a verdict, and so every stream has a script.
pub fn every_stream_has_a_script()
    ensures verdict { EveryVerdict }
    ensures script { EveryScript }
{}

/// The canonical spelling of a command spells it: where its names are names, its numbers have at most 18 digits, its ids
/// are id words, and its sizes are within the limits.
pub fn canonical_is_spelling()
    ensures { CanonicalIsSpelling }
{}
