use broker_changes::topics::{any_due, owes, takes};
use broker_history::{Act, Entry};
use broker_state::{State, TopicState};
use nsq_outside::End;

// The most moves that a turn makes as they are due.
const MOST_MOVES: usize = 64;

// What counts of an act for what stands before another.
#[derive(Clone, Copy, PartialEq, Eq)]
enum Kind {
    // A move that comes as it is due.
    DueMove,
    // A move that is never due.
    Held,
    // The daemon's Stuck.
    StuckTopic,
    // A Stop.
    Stop,
    // Any other act.
    Other,
}

// Which kind of act it is.
fn kind_of(act: &Act) -> Kind {
    match act {
        Act::Took(..) | Act::Copied(..) | Act::TimedOut(..) | Act::CameDue(..) => Kind::DueMove,
        Act::HeldBack(..) => Kind::Held,
        Act::Stuck(_, None) => Kind::StuckTopic,
        Act::Stop => Kind::Stop,
        _ => Kind::Other,
    }
}

// Whether a move of this topic is due at a moment (`is_topic_due`): it takes a message, or a channel is owed one, or a copy in one of its channels is
// due.
fn is_topic_due(at: u64, topic: &TopicState) -> bool {
    if takes(topic) {
        return true;
    }
    if owes(&topic.taken) {
        return true;
    }
    any_due(at, &topic.channels)
}

// Whether a move is due at a moment (`is_any_due`); behind a Stop none is.
fn is_any_due(state: &State, at: u64) -> bool {
    if state.stopped {
        return false;
    }
    for topic in &state.topics {
        if is_topic_due(at, topic) {
            return true;
        }
    }
    false
}

// Whether a topic has taken a message.
fn is_any_taken(state: &State) -> bool {
    for topic in &state.topics {
        if topic.taken.is_some() {
            return true;
        }
    }
    false
}

// What stands just before the end of a history that a turn of one moment may build on.
#[derive(Clone, Copy)]
struct Standing {
    // How many due moves of the moment (`moves_at_front`), with nothing behind them; 64 stands for more too.
    front: usize,
    // The same, with nothing but held back ones behind them (`moves_before`).
    moves: usize,
    // Whether a stuck entry of the daemon at the moment, with nothing but held back ones behind it (`stuck_before`).
    stuck: bool,
    // The same, with nothing behind it (`stuck_last`).
    stuck_last: bool,
}

// What stands before the first entry.
const NOTHING: Standing = Standing {
    front: 0,
    moves: 0,
    stuck: false,
    stuck_last: false,
};

// What stands just before the end of a history.
fn stands_before(at: u64, history: &[(Entry, End)]) -> Standing {
    let mut standing = NOTHING;
    for (entry, end) in history {
        standing = behind(standing, entry.at == at, kind_of(&entry.act), *end);
    }
    standing
}

// What stands just before the end after one more entry of this kind and end, at the moment or not.
fn behind(before: Standing, is_now: bool, kind: Kind, end: End) -> Standing {
    let stuck = is_now && is_stuck(kind, end);
    if kind == Kind::Held {
        return Standing {
            front: 0,
            moves: before.moves,
            stuck: stuck || before.stuck,
            stuck_last: stuck,
        };
    }
    let moves = if kind == Kind::DueMove && is_now {
        one_more(before.front)
    } else {
        0
    };
    Standing {
        front: moves,
        moves,
        stuck,
        stuck_last: stuck,
    }
}

// One move more, of which at most so many are counted as a turn makes.
fn one_more(count: usize) -> usize {
    if count < MOST_MOVES {
        count + 1
    } else {
        MOST_MOVES
    }
}

// Whether an entry of this kind and end is a stuck one of the daemon: its Stuck, or a move that met a disk fault.
fn is_stuck(kind: Kind, end: End) -> bool {
    match kind {
        Kind::StuckTopic => true,
        Kind::DueMove | Kind::Held => is_faulted(end),
        Kind::Stop | Kind::Other => false,
    }
}

// Whether it is a disk fault.
fn is_faulted(end: End) -> bool {
    match end {
        End::Faulted(_) => true,
        End::Done | End::Skip => false,
    }
}

// Whether behind what stands there, in this state, a turn of this moment may make its act (`MayAct`): no move is due, or as many as a turn makes
// stand just before, or one got stuck.
fn may_act(standing: Standing, state: &State, at: u64) -> bool {
    if !is_any_due(state, at) {
        return true;
    }
    standing.moves >= MOST_MOVES || standing.stuck
}

// Whether behind what stands there, in this state, a Stop may stand (`MayStop`): nothing is owed, or the last entry got stuck.
fn may_stop(standing: Standing, state: &State) -> bool {
    if !is_any_taken(state) {
        return true;
    }
    standing.stuck_last
}

// Whether what is due was moved before the entry, as far as it has to be (`IsPaid`); moves and the daemon's Stuck stand anywhere.
pub(crate) fn is_paid(history: &[(Entry, End)], state: &State, entry: &Entry) -> bool {
    let at = entry.at;
    let standing = stands_before(at, history);
    match kind_of(&entry.act) {
        Kind::DueMove | Kind::Held | Kind::StuckTopic => true,
        Kind::Other => may_act(standing, state, at),
        Kind::Stop => may_act(standing, state, at) && may_stop(standing, state),
    }
}
