ghost use Rattle.std.specs.Prelude.{◌≡◌, ◌&&◌};
ghost use Rattle.broker_history.specs.Entries.{is_faulted};
ghost use Rattle.drill_parts.specs.Counting.{finished_in, is_accepting, is_finishing, is_response, is_sending, published_in, sent_in};

use broker_history::{Act, Entry};
use nsq_outside::End;
use v2_frame::{Command, FrameKind};

/// How many messages were accepted: PUBs whose reply is no error. One that a disk fault kept from being carried out doesn't count.
pub fn published_in(entries: &[(Entry, End)]) -> u64
    ensures { result ≡ published_in entries.now }
{
    let mut count = 0;
    for (entry, end) in entries {
        if is_accepting(&entry.act) && !is_faulted(*end) {
            count += 1;
        }
    }
    count
}

/// How many messages were sent.
pub fn sent_in(entries: &[(Entry, End)]) -> u64
    ensures { result ≡ sent_in entries.now }
{
    let mut count = 0;
    for (entry, _) in entries {
        if is_sending(&entry.act) {
            count += 1;
        }
    }
    count
}

/// How many FINs succeeded.
pub fn finished_in(entries: &[(Entry, End)]) -> u64
    ensures { result ≡ finished_in entries.now }
{
    let mut count = 0;
    for (entry, end) in entries {
        if is_finishing(&entry.act) && !is_faulted(*end) {
            count += 1;
        }
    }
    count
}

// Whether an act is a PUB whose reply is no error.
fn is_accepting(act: &Act) -> bool
    ensures { result ≡ is_accepting act.now }
{
    match act {
        Act::Did(Command::Pub(_, _), Some(frame)) => is_response(frame.kind),
        _ => false,
    }
}

fn is_response(kind: FrameKind) -> bool
    ensures { result ≡ is_response kind }
{
    match kind {
        FrameKind::Response => true,
        _ => false,
    }
}

// Whether an act is a message that was sent.
fn is_sending(act: &Act) -> bool
    ensures { result ≡ is_sending act.now }
{
    match act {
        Act::Sent(_) => true,
        _ => false,
    }
}

// Whether an act is a FIN without a reply: one that fails is answered with an error.
fn is_finishing(act: &Act) -> bool
    ensures { result ≡ is_finishing act.now }
{
    match act {
        Act::Did(Command::Fin(_), None) => true,
        _ => false,
    }
}

// Whether an entry ended with a disk fault.
fn is_faulted(end: End) -> bool
    ensures { result ≡ is_faulted end }
{
    match end {
        End::Faulted(_) => true,
        _ => false,
    }
}
