ghost use Rattle.stream_laws.specs.ReaderLaws.{CommandsTakeBytes, FaultStays, FedHasRead, FreshHasRead, GivenHasRead, GivenIsLeft, LimitsStay, ReadIsScript};

/// After any feeds, the commands that a reader gave so far followed by those that are left are the script of all bytes
/// fed, whatever the pieces were. It does nothing: its contract is the law, step by step.
pub fn any_pieces_are_one_stream()
    ensures fresh { FreshHasRead }
    ensures fed { FedHasRead }
    ensures given { GivenHasRead }
    ensures script { ReadIsScript }
    ensures limits { LimitsStay }
{}

/// What was left before an answer is the command given, if any, and what is left then, and a command takes one byte
/// at least of those that are pending. After a fault each answer is that fault.
pub fn answers_take_what_is_left()
    ensures left { GivenIsLeft }
    ensures less { CommandsTakeBytes }
    ensures stays { FaultStays }
{}
