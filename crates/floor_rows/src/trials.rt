//! Folders of which one call after another fails: while ten topics with two channels each are opened, while their names are saved, and while they
//! are shut. Each such call leads to Fault, also one that removes a file or makes something durable.

use crate::files::{NAMES, bytes_of, put_copies, put_copy, same_file};
use crate::findings::{Listing, listing_of};
use crate::outside::Dials;
use crate::stage::Stage;
use crate::texts::{check, number, parted, put, put_number, put_word, same};
use nsq_fakes::{Failing, FolderCall};
use path_plain::NamedFile;
use std::alloc::Global;
use std::process::Abort;

// How many topics there are.
const TOPICS: usize = 10;

// So many messages each queue keeps in memory.
const KEPT: u64 = 2;

// More calls of the folder than any run makes.
const MOST_CALLS: u64 = 10_000;

// As many queues as there are, or more.
const ALL: usize = 3 * TOPICS;

// More calls of the folder than one opening, saving or shutting makes.
const LASTING: u64 = 1_000;

// A file that no topic and no channel has: an opening sets it aside.
const UNLISTED: &[u8] = b"a.diskqueue.000000.dat";

// The turns that fill a topic, whose name stands at the @: one message waits in it; of the channel a two copies are in flight, one is queued and one
// deferred, and of b three are queued and one is deferred. Behind a 1 stands what the topic's client does.
const TURNS: &str = "
    0 create @
    0 create @ a
    0 create @ b
    1 begin
    1 MPUB @ x y z
    1 DPUB @ 60000 w
    1 SUB @ a
    1 RDY 2
    1 next
    1 next
    0 pause @
    1 PUB @ v
";

// What statistics say behind the name of a topic that was filled.
const FILLED: &[u8] = b" depth 1 disk 1 paused [ a depth 4 disk 4 b depth 4 disk 4 ]";

// What is tried, how many calls of the folder it makes at least, and its name. Behind a call that fails all later ones of a broken folder fail too.
const ROWS: &str = "
    open 200 each call of an opening fails
    save 5 each call of saving the names fails
    shut 100 each call of shutting fails
    shut-broken 100 all calls of shutting fail from one on
";

// What became of a run that made fewer calls than the one that was to fail; in others nothing is said where all is as it should be.
const UNREACHED: &str = "unreached";

const UNOPENED: &str = "it isn't opened";

const OTHERS: &str = "something else is found";

/// What the trials stand on: how many calls of the folder are made until all topics are filled, the file of names then, and what is left of them.
#[derive(Drop)]
struct Base {
    calls: u64,
    names: Vec<u8>,
    files: Vec<NamedFile>,
    listing: Listing,
}

// Opens these files, and so many calls fail from this one on. Why that is refused, if it is.
fn opened(
    rt: &impl Abort,
    stage: &mut Stage,
    files: &[NamedFile],
    from: u64,
    count: u64,
) -> &'static str {
    stage.clear();
    stage.setting.memory = KEPT;
    put_copies(rt, stage.alloc, &mut stage.files, files);
    let call = FolderCall::Any;
    let to = from.saturating_add(count);
    stage
        .fails
        .push(Failing { call, from, to })
        .expect(rt, "memory");
    stage.open(rt)
}

// Fills all topics over an empty folder, of which so many calls fail from this one on. Whether that isn't refused.
fn fills(rt: &impl Abort, stage: &mut Stage, from: u64, count: u64) -> bool {
    let why = opened(rt, stage, &[], from, count);
    for topic in 0..TOPICS {
        fill(rt, stage, topic);
    }
    why.is_empty()
}

// Makes the turns of a topic.
fn fill(rt: &impl Abort, stage: &mut Stage, topic: usize) {
    for turn in TURNS.lines() {
        let turn = turn.trim();
        if !turn.is_empty() {
            let call = call_text(rt, stage.alloc, turn, topic);
            stage.call(rt, &call);
        }
    }
}

// A turn of a topic, as a line has it.
fn call_text(rt: &impl Abort, alloc: Global, turn: &str, topic: usize) -> String {
    let (number, text) = parted(turn);
    let number = if same(number.as_bytes(), b"0") {
        0
    } else {
        topic.saturating_add(1)
    };
    match text.split_once("@") {
        Some((before, behind)) => format!(in alloc; "{number} {before}t{topic}{behind}"),
        None => format!(in alloc; "{number} {text}"),
    }
    .expect(rt, "memory")
}

// What is left of all topics where no call fails, and of a file that none has. Whether that is what was filled in.
fn put_base(rt: &impl Abort, stage: &mut Stage, base: &mut Base) -> bool {
    let fills_first = fills(rt, stage, 0, 0);
    stage.end("leave");
    (base.calls, _) = stage.called();
    put(rt, &mut base.names, stage.file(NAMES).unwrap_or(b""));
    let fills_again = fills(rt, stage, 0, 0);
    let is_clean = same(stage.end("shut"), b"clean");
    put_copy(rt, stage.alloc, &mut base.files, UNLISTED, b"x");
    let left = stage.files_left(rt);
    put_copies(rt, stage.alloc, &mut base.files, &left);
    base.listing = listing_of(rt, stage.alloc, &base.files);
    fills_first && fills_again && is_clean && is_filled(rt, stage.alloc, &base.listing)
}

// Whether this is found of all topics.
fn is_filled(rt: &impl Abort, alloc: Global, listing: &Listing) -> bool {
    let mut text = Vec::new(alloc);
    put(rt, &mut text, b"stats");
    for topic in 0..TOPICS {
        put(rt, &mut text, b" t");
        put_number(rt, &mut text, topic as u128);
        put(rt, &mut text, FILLED);
    }
    listing.epoch == 1 && same(&listing.stats, &text)
}

// Whether an opening of these files without failures finds what is listed, in the next epoch.
fn reopened(
    rt: &impl Abort,
    stage: &mut Stage,
    files: &[NamedFile],
    listing: &Listing,
) -> &'static str {
    let mut epoch = Vec::new(stage.alloc);
    put_number(rt, &mut epoch, u128::from(listing.epoch.saturating_add(1)));
    if opened(rt, stage, files, 0, 0).is_empty()
        && answers(rt, stage, "epoch", &epoch)
        && answers(rt, stage, "0 stats", &listing.stats)
    {
        ""
    } else {
        "a second opening finds something else"
    }
}

// Whether a call is answered so.
fn answers(rt: &impl Abort, stage: &mut Stage, call: &str, wanted: &[u8]) -> bool {
    stage.call(rt, call) && same(stage.answer(), wanted)
}

// What it is that all went well in a run of which a call was to fail.
fn passed(stage: &Stage, call: u64) -> &'static str {
    let (made, _) = stage.called();
    if made <= call {
        UNREACHED
    } else {
        "it passes over a call that failed"
    }
}

// An opening of which this call fails. Behind one that is refused the same messages are found, with the same epoch or the next.
fn opening(rt: &impl Abort, stage: &mut Stage, base: &Base, call: u64) -> &'static str {
    let why = opened(rt, stage, &base.files, call, 1);
    if why.is_empty() {
        stage.end("leave");
        return passed(stage, call);
    }
    if !same(why.as_bytes(), b"fault") {
        return "it is refused for another cause";
    }
    let files = stage.files_left(rt);
    let what = found_again(rt, stage, base, &files, true);
    drop(files);
    what
}

// Whether a second opening finds what is listed of these files, which have to be all that was filled in where that is said.
fn found_again(
    rt: &impl Abort,
    stage: &mut Stage,
    base: &Base,
    files: &[NamedFile],
    are_all: bool,
) -> &'static str {
    let listing = listing_of(rt, stage.alloc, files);
    let what = if are_all && !is_base(&listing, &base.listing) {
        OTHERS
    } else {
        reopened(rt, stage, files, &listing)
    };
    drop(listing);
    what
}

// Whether the same is listed as at first, with the same epoch or the next.
fn is_base(listing: &Listing, base: &Listing) -> bool {
    listing.epoch.wrapping_sub(base.epoch) <= 1 && listing.differences(base) == 0
}

// Saving of which this call fails: once it is left then, and once it is tried again.
fn saving(rt: &impl Abort, stage: &mut Stage, base: &Base, call: u64) -> &'static str {
    let what = saved_once(rt, stage, base, call);
    if what.is_empty() {
        saved_again(rt, stage, base, call)
    } else {
        what
    }
}

// Behind a saving that failed the file of names is the old or the new one, and the names are still to be saved.
fn saved_once(rt: &impl Abort, stage: &mut Stage, base: &Base, call: u64) -> &'static str {
    if !fills(rt, stage, call, 1) {
        return UNOPENED;
    }
    let is_done = answers(rt, stage, "save", b"done");
    let is_changed = answers(rt, stage, "changed", b"yes");
    stage.end("leave");
    if is_done {
        passed(stage, call)
    } else if !is_changed {
        "nothing is to be saved any longer"
    } else if !has_names(base, stage.file(NAMES)) {
        "the file of names is another"
    } else {
        ""
    }
}

// Saving that failed is made once more, and all is saved.
fn saved_again(rt: &impl Abort, stage: &mut Stage, base: &Base, call: u64) -> &'static str {
    if !fills(rt, stage, call, 1) {
        return UNOPENED;
    }
    let saves = answers(rt, stage, "save", b"fault")
        && answers(rt, stage, "save", b"done")
        && answers(rt, stage, "changed", b"no");
    stage.end("leave");
    if !saves {
        "it can't be saved again"
    } else if !same_file(stage.file(NAMES), bytes_of(&base.files, NAMES)) {
        "something else is saved"
    } else {
        ""
    }
}

// Whether the file of names is the old or the new one.
fn has_names(base: &Base, names: Option<&[u8]>) -> bool {
    same_file(names, Some(&base.names)) || same_file(names, bytes_of(&base.files, NAMES))
}

// Shutting of which so many calls fail from this one on. Behind one that fails no more than one queue was missed; where all later ones fail and the
// names were saved all the same, none was.
fn shutting(
    rt: &impl Abort,
    stage: &mut Stage,
    base: &Base,
    call: u64,
    count: u64,
) -> &'static str {
    if !fills(rt, stage, call, count) {
        return UNOPENED;
    }
    let end = stage.end("shut");
    if same(end, b"clean") {
        return passed(stage, call);
    }
    if !same(end, b"fault") {
        return "it ends for want of memory";
    }
    let files = stage.files_left(rt);
    let what = shut_wrongly(rt, stage, base, &files, count);
    drop(files);
    what
}

// What is wrong with these files, which shutting left of which so many calls failed.
fn shut_wrongly(
    rt: &impl Abort,
    stage: &mut Stage,
    base: &Base,
    files: &[NamedFile],
    count: u64,
) -> &'static str {
    if !has_names(base, bytes_of(files, NAMES)) {
        "the file of names is another"
    } else if missed(rt, stage.alloc, base, files) > most_missed(base, files, count) {
        "too many queues were missed"
    } else {
        // By the file of names that is there, a second opening finds what was kept.
        found_again(rt, stage, base, files, false)
    }
}

// How many queues may be missed at most behind shutting of which so many calls failed, and which left these files.
fn most_missed(base: &Base, files: &[NamedFile], count: u64) -> usize {
    if count == 1 {
        1
    } else if same_file(bytes_of(files, NAMES), bytes_of(&base.files, NAMES)) {
        0
    } else {
        ALL
    }
}

// How many queues haven't their messages by the new file of names.
fn missed(rt: &impl Abort, alloc: Global, base: &Base, files: &[NamedFile]) -> usize {
    let names = bytes_of(&base.files, NAMES).unwrap_or(b"");
    let mut whole = Vec::new(alloc);
    put_copy(rt, alloc, &mut whole, NAMES.as_bytes(), names);
    put_copies(rt, alloc, &mut whole, files);
    listing_of(rt, alloc, &whole).differences(&base.listing)
}

// What becomes of a trial in which the call of this number fails.
fn try_call(
    rt: &impl Abort,
    stage: &mut Stage,
    base: &Base,
    trial: &str,
    number: u64,
) -> &'static str {
    let call = base.calls.saturating_add(number);
    match trial {
        "open" => opening(rt, stage, base, number),
        "save" => saving(rt, stage, base, call),
        "shut" => shutting(rt, stage, base, call, 1),
        "shut-broken" => shutting(rt, stage, base, call, LASTING),
        _ => "it is no trial",
    }
}

// How many calls a trial makes, each of which fails in turn, and what is wrong where that isn't all right.
fn counted(rt: &impl Abort, stage: &mut Stage, base: &Base, trial: &str) -> (u64, &'static str) {
    for count in 0..MOST_CALLS {
        let what = try_call(rt, stage, base, trial, count);
        if same(what.as_bytes(), UNREACHED.as_bytes()) {
            return (count, "");
        }
        if !what.is_empty() {
            return (count, what);
        }
    }
    (MOST_CALLS, "it doesn't end")
}

// What differs in a trial of so many calls at least, as text; nothing where it holds.
fn differs(rt: &impl Abort, stage: &mut Stage, trial: &str, least: u64) -> Vec<u8> {
    let alloc = stage.alloc;
    let mut base = Base {
        calls: 0,
        names: Vec::new(alloc),
        files: Vec::new(alloc),
        listing: listing_of(rt, alloc, &[]),
    };
    let mut text = Vec::new(alloc);
    if put_base(rt, stage, &mut base) {
        let (count, what) = counted(rt, stage, &base, trial);
        put_counted(rt, &mut text, least, count, what);
    } else {
        put(rt, &mut text, b"the topics aren't filled");
    }
    drop(base);
    text
}

// What is wrong at the call of this number, if something is, or if a trial has fewer calls than this.
fn put_counted(rt: &impl Abort, text: &mut Vec<u8>, least: u64, count: u64, what: &str) {
    if !what.is_empty() || count < least {
        put(rt, text, b"at call ");
        put_number(rt, text, u128::from(count));
        put_word(rt, text, what.as_bytes());
    }
}

// Stops the run where a trial doesn't hold, with its name and what differs in it. One that differs begins once more: a call of the path may have found
// no memory.
fn try_row(rt: &impl Abort, stage: &mut Stage, row: &str) {
    let (trial, rest) = parted(row);
    let (least, name) = parted(rest);
    let least = number(rt, least);
    let mut wrong = differs(rt, stage, trial, least);
    if !wrong.is_empty() {
        wrong = differs(rt, stage, trial, least);
    }
    check(rt, stage.alloc, name, &wrong);
}

fn try_rows(rt: &impl Abort, stage: &mut Stage) {
    for row in ROWS.trim().lines() {
        try_row(rt, stage, row.trim());
    }
}

#[test]
fn failing_calls(rt: HostRuntime) {
    let dials = Dials::new();
    let mut stage = Stage::new(rt.alloc(), &dials);
    try_rows(&rt, &mut stage);
    stage.close();
}
