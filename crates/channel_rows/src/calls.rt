//! Calls of a channel that has two clients, and what they answer, as plain values.

ghost use Rattle.channel_rows.specs.Served.{IsOurs};

use crate::words::{cut, id, id_of, letter, moment, number, same, unknown, words};
use nsq_base::MsgId;
use std::process::Abort;
use v2_frame::Message;

/// The two clients, which are always subscribed.
#[derive(Clone, Copy, PartialEq, Eq)]
pub enum Who {
    First,
    Second,
}

impl Who {
    /// The number of the client.
    pub fn client(self) -> u64
        ensures { IsOurs result }
    {
        match self {
            Who::First => 1,
            Who::Second => 2,
        }
    }
}

/// What a call does.
#[derive(Clone, Copy)]
pub enum Does {
    Offer,
    /// What is drawn for the client is settled, or put back where the call isn't on.
    Give,
    Finish,
    Touch,
    Requeue,
    /// Puts back what is due first.
    Move,
    Ready,
    Pause,
    /// The second client leaves, and subscribes again.
    ComeAgain,
    Sync,
    Empty,
    /// The channel is deleted, and made anew.
    Delete,
    Flush,
    /// The channel is opened in the folder, in place of this one.
    Open,
    /// A flush, and then an opening. It is a call of random runs alone.
    Restart,
}

/// A call with what it takes: each kind of them uses some of that. Moments and delays are in nanoseconds, at most `MOST`; the moment of what comes
/// due may be any.
#[derive(Clone, Copy)]
pub struct Call {
    pub does: Does,
    pub who: Who,
    pub id: MsgId,
    pub letter: u8,
    pub attempts: u16,
    pub delay: u64,
    pub at: u64,
    pub count: u32,
    pub on: bool,
    /// From 4 on the call is of one of the copies in flight, if there is one, in place of its id's.
    pub place: u64,
}

/// What came of a call.
#[derive(Clone, Copy)]
pub enum Came {
    Done,
    /// The folder failed. What was offered comes back.
    Fault,
    /// Likewise, for want of memory.
    Memory,
    /// There was no memory for the message that was to be offered.
    Wanting,
    Sent,
    Held,
    NoCredit,
    Paused,
    NoneQueued,
    /// The copy isn't in flight with the client.
    NotYours,
    TimedOut,
    CameDue,
    /// The folder failed, and what is due stays.
    Stays,
    Nothing,
    NotDue,
    BadMeta,
    /// What no row expects.
    Odd,
}

/// What a message has; its letter where its body is one.
#[derive(Clone, Copy)]
pub struct Sight {
    pub stamp: u64,
    pub attempts: u16,
    pub id: MsgId,
    pub letter: Option<u8>,
    pub delay: u64,
}

/// What came of a call, and the copy that it tells of, where it tells of one: perhaps its id alone.
#[derive(Clone, Copy)]
pub struct Answer {
    pub came: Came,
    pub copy: Sight,
}

// What is seen of a message.
fn sight_of(message: &Message) -> Sight {
    Sight {
        stamp: message.stamp,
        attempts: message.attempts,
        id: message.id,
        letter: letter_of(message.body.bytes()),
        delay: message.delay,
    }
}

fn letter_of(bytes: &[u8]) -> Option<u8> {
    match bytes {
        [letter] => Some(*letter),
        _ => None,
    }
}

impl Answer {
    /// An answer that tells of the copy with this id.
    pub fn about(came: Came, id: MsgId) -> Answer {
        let copy = Sight {
            stamp: 0,
            attempts: 0,
            id,
            letter: None,
            delay: 0,
        };
        Answer { came, copy }
    }

    /// An answer that tells of this message.
    pub fn seen(came: Came, message: &Message) -> Answer {
        Answer {
            came,
            copy: sight_of(message),
        }
    }

    /// An answer that tells of no copy.
    pub fn of(came: Came) -> Answer {
        Answer::about(came, id_of(0))
    }

    /// Whether it is what a row says: its word, and of a copy its number; of one that is sent its letter and its attempts too.
    pub fn is(&self, rt: &impl Abort, wanted: &str) -> bool {
        let (word, rest) = cut(wanted);
        same(word_of(self.came), word) && self.copy.is(rt, self.came, rest)
    }
}

impl Sight {
    fn is(&self, rt: &impl Abort, came: Came, wanted: &str) -> bool {
        match came {
            Came::Sent => self.is_sent(rt, wanted),
            Came::Held | Came::TimedOut | Came::CameDue | Came::Stays => self.id == id(rt, wanted),
            _ => wanted.is_empty(),
        }
    }

    fn is_sent(&self, rt: &impl Abort, wanted: &str) -> bool {
        let [of, body, attempts, _, _] = words(wanted);
        self.stamp == 7
            && self.id == id(rt, of)
            && self.letter == Some(letter(rt, body))
            && u64::from(self.attempts) == number(rt, attempts)
    }
}

// The word for what came.
fn word_of(came: Came) -> &'static str {
    match came {
        Came::Done => "done",
        Came::Fault => "fault",
        Came::Memory => "memory",
        Came::Wanting => "wanting",
        Came::Sent => "send",
        Came::Held => "held",
        Came::NoCredit => "no-credit",
        Came::Paused => "paused",
        Came::NoneQueued => "none-queued",
        Came::NotYours => "not-yours",
        Came::TimedOut => "timed-out",
        Came::CameDue => "came-due",
        Came::Stays => "stays",
        Came::Nothing => "nothing",
        Came::NotDue => "not-due",
        Came::BadMeta => "bad-metadata",
        Came::Odd => "odd",
    }
}

/// A call of this kind, with nothing that it takes.
pub fn call_of(does: Does) -> Call {
    Call {
        does,
        who: Who::First,
        id: id_of(0),
        letter: b'm',
        attempts: 0,
        delay: 0,
        at: 0,
        count: 0,
        on: true,
        place: 0,
    }
}

/// What the call of this word does, and what stands behind the word in a row; None where it is the word of no call.
pub fn kind_of(word: &str) -> Option<(Does, &'static str)> {
    match word {
        "offer" => Some((Does::Offer, "number letter delay at attempts")),
        "give" => Some((Does::Give, "who at")),
        "put-back" => Some((Does::Give, "who at back")),
        "finish" => Some((Does::Finish, "who number")),
        "touch" => Some((Does::Touch, "who number at")),
        "requeue" => Some((Does::Requeue, "who number delay at")),
        "move" => Some((Does::Move, "at")),
        _ => whole_kind_of(word),
    }
}

// The same of calls that move no single copy.
fn whole_kind_of(word: &str) -> Option<(Does, &'static str)> {
    match word {
        "ready" => Some((Does::Ready, "who count")),
        "pause" => Some((Does::Pause, "on")),
        "come-again" => Some((Does::ComeAgain, "")),
        "sync" => Some((Does::Sync, "")),
        "empty" => Some((Does::Empty, "")),
        "delete" => Some((Does::Delete, "")),
        "flush" => Some((Does::Flush, "")),
        "open" => Some((Does::Open, "")),
        "restart" => Some((Does::Restart, "")),
        _ => None,
    }
}

/// The call of these words: its own, and what it takes. None where it is the word of no call.
pub fn call_in(rt: &impl Abort, word: &str, taken: &str) -> Option<Call> {
    let (does, fields) = kind_of(word)?;
    let mut call = call_of(does);
    let mut words = taken.split(' ');
    for field in fields.split(' ') {
        fill(rt, &mut call, field, words.next().unwrap_or(""));
    }
    match words.next() {
        Some(_) => unknown(rt, taken),
        None => Some(call),
    }
}

// Gives the call what a word says.
fn fill(rt: &impl Abort, call: &mut Call, field: &str, word: &str) {
    match field {
        "who" => call.who = client_named(rt, word),
        "number" => call.id = id(rt, word),
        "letter" => call.letter = letter(rt, word),
        "delay" => call.delay = moment(rt, word),
        "at" => call.at = moment(rt, word),
        _ => fill_rest(rt, call, field, word),
    }
}

fn fill_rest(rt: &impl Abort, call: &mut Call, field: &str, word: &str) {
    match field {
        "attempts" if word.is_empty() => {}
        "attempts" => call.attempts = word.parse::<u16>().expect(rt, "a number"),
        "count" => call.count = word.parse::<u32>().expect(rt, "a number"),
        "on" => call.on = is_on(rt, word),
        "back" => call.on = false,
        _ => {}
    }
}

/// The client of this word.
pub fn client_named(rt: &impl Abort, word: &str) -> Who {
    match word {
        "first" => Who::First,
        "second" => Who::Second,
        _ => unknown(rt, word),
    }
}

fn is_on(rt: &impl Abort, word: &str) -> bool {
    match word {
        "on" => true,
        "off" => false,
        _ => unknown(rt, word),
    }
}
