//! The text of the file of names, to the byte: what it keeps of a state, and that it is read as it was written.

use crate::made::{check, let_state_go, part, same};
use crate::state::given::state;
use broker_files::{KeptNames, kept_names, names_text, read_names};
use broker_state::State;
use std::alloc::Global;
use std::process::Abort;

// A row is a text: its name, a state, and behind `=>` the text of what is kept of it.
static ROWS: &'static str = r#"
nothing but the epoch
    1 0 0 clients: topics: => {"id_epoch":1,"topics":[],"version":"1.0.0"}

a topic without a channel
    1 0 0 clients: topics: t on 0 waiting taken
    => {"id_epoch":1,"topics":[{"channels":[],"name":"t","paused":false}],"version":"1.0.0"}

two topics with pauses and channels, without what is ephemeral
    17 0 0 clients: topics: s paused 0 waiting taken / b paused 0 0 0 / c#ephemeral on 0 0 0 / c-1.x_Y on 0 0 0;
        s#ephemeral on 0 waiting taken / b paused 0 0 0; t on 0 waiting taken
    => {"id_epoch":17,"topics":[{"channels":[{"name":"b","paused":true},{"name":"c-1.x_Y","paused":false}],"name":"s","paused":true},{"channels":[],"name":"t","paused":false}],"version":"1.0.0"}
"#;

/// Whether the text, as it is read, would be written so again.
fn stays(rt: &impl Abort, alloc: Global, text: &[u8]) -> bool {
    match read_names(alloc, text).expect(rt, "memory") {
        Some(kept) => is_text_of(rt, alloc, text, &kept),
        None => false,
    }
}

fn is_text_of(rt: &impl Abort, alloc: Global, text: &[u8], kept: &KeptNames) -> bool {
    let written = names_text(alloc, kept).expect(rt, "memory");
    same(&written, text)
}

/// Whether this is the text of what is kept of a state.
pub fn keeps(rt: &impl Abort, alloc: Global, state: &State, text: &[u8]) -> bool {
    let kept = kept_names(alloc, state).expect(rt, "memory");
    is_text_of(rt, alloc, text, &kept)
}

fn holds(rt: &impl Abort, alloc: Global, row: &str) -> bool {
    let (_, rest) = part(rt, row, "\n");
    let (given, text) = part(rt, rest, "=> ");
    let state = state(rt, alloc, given.trim());
    let keeps = keeps(rt, alloc, &state, text.as_bytes());
    let_state_go(state);
    keeps && stays(rt, alloc, text.as_bytes())
}

#[test]
fn rows(rt: HostRuntime) {
    for row in ROWS.trim().split("\n\n") {
        check(&rt, holds(&rt, rt.alloc(), row), row);
    }
}
