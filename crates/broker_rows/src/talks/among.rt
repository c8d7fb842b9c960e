//! Conversations in whole histories, among the entries of others.

use crate::lines::tell;
use crate::made::{check, let_entries_go, part};
use crate::talks::conversation::is_talk;
use std::alloc::Global;
use std::process::Abort;

static ROWS: &'static str = "
a connection among others
        told: 0 1 began; 0 0 ticked; 0 2 began; 0 1 idle; 0 2 idle; 0 1 nop; 0 0 stuck t; 0 1 idle; 0 1 gone; 0 2 gone
        talk: 1 EndOfInput: Magic Nop =>

the other connection
        told: 0 1 began; 0 0 ticked; 0 2 began; 0 1 idle; 0 2 idle; 0 1 nop; 0 0 stuck t; 0 1 idle; 0 1 gone; 0 2 gone
        talk: 2 EndOfInput: =>

the other connection, with the first one's bytes
        told: 0 1 began; 0 2 began; 0 1 idle; 0 2 idle; 0 1 nop; 0 1 idle; 0 1 gone; 0 2 gone
        no talk: 2 EndOfInput: Magic Nop =>

a Stop of the daemon before its Gone
        told: 0 1 began; 0 1 idle; 0 0 stop; 0 1 gone
        talk: 1 Closed: =>

a Stop of the daemon behind its Gone
        told: 0 1 began; 0 1 idle; 0 1 gone; 0 0 stop
        no talk: 1 Closed: =>

a Stop behind which it isn't gone
        told: 0 1 began; 0 1 idle; 0 0 stop
        no talk: 1 Closed: =>

a Stop behind its Gone, and before another's
        told: 0 2 began; 0 1 began; 0 1 idle; 0 1 gone; 0 0 stop; 0 2 gone
        no talk: 1 Closed: =>

a heartbeat of another connection
        told: 0 1 began; 0 2 began; 0 2 beat; 0 1 idle; 0 1 gone; 0 2 gone
        no talk: 1 EndOfInput: => Heartbeat
";

// Whether the talk is a conversation in the history, or none where the row says so.
fn holds(rt: &impl Abort, alloc: Global, row: &str) -> bool {
    match row.split_once("no talk:") {
        Some((told, talk)) => !is_talk_told(rt, alloc, told, talk),
        None => {
            let (told, talk) = part(rt, row, "talk:");
            is_talk_told(rt, alloc, told, talk)
        }
    }
}

fn is_talk_told(rt: &impl Abort, alloc: Global, told: &str, talk: &str) -> bool {
    let (_, told) = part(rt, told, "told:");
    let mut entries = Vec::new(alloc);
    tell(rt, alloc, &mut entries, told);
    let is_talk = is_talk(rt, alloc, talk.trim(), &entries);
    let_entries_go(entries);
    is_talk
}

#[test]
fn rows(rt: HostRuntime) {
    for row in ROWS.trim().split("\n\n") {
        check(&rt, holds(&rt, rt.alloc(), row), row);
    }
}
