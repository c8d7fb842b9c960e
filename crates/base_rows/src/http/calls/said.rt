//! Rows of what is said to what was asked: a name, whether a `publish` was asked or something `else`, what is said, and its answer. What is
//! said is `done`, `no topic`, `no channel`, `ids`, `disk` or `stats`; a `stop` is; nothing is, as memory is wanting (`out of memory`) or as the
//! daemon stops (`stopping`).

use crate::http::calls::requests::text_of_answer;
use crate::text::{check_row, cut, is_first, rows_of, text_of};
use crate::words::unknown;
use crate::{check, same};
use broker_history::{Items, Said, Stats};
use http_calls::{HttpAnswer, Refusal, answer_to, stop_answer};
use http_wire::write_answer;
use std::alloc::Global;
use std::process::Abort;

static ROWS: &[u8] = b"\
a publish|publish|done|200 text OK~\
something else that is done|else|done|200 text ~\
no topic|else|no topic|404 json {\"message\":\"TOPIC_NOT_FOUND\"}~\
no channel|else|no channel|404 json {\"message\":\"CHANNEL_NOT_FOUND\"}~\
ids are spent|publish|ids|503 json {\"message\":\"IDS_SPENT\"}~\
a disk fault|publish|disk|500 json {\"message\":\"DISK_FAULT\"}~\
statistics|else|stats|200 json {\"health\":\"OK\",\"start_time\":3,\"topics\":[],\"version\":\"1.0.0\"}~\
a stop|else|stop|200 text OK~\
want of memory|else|out of memory|503 json {\"message\":\"OUT_OF_MEMORY\"}~\
a daemon that stops|else|stopping|503 json {\"message\":\"STOPPING\"}~\
";

/// What it is answered.
fn answer_of(rt: &impl Abort, alloc: Global, publish: bool, told: &str) -> HttpAnswer {
    let said = match told {
        "done" => Said::Done,
        "no topic" => Said::NoTopic,
        "no channel" => Said::NoChannel,
        "ids" => Said::Ids,
        "disk" => Said::Disk,
        "stats" => Said::Stats(Stats {
            topics: Items::new(alloc),
        }),
        _ => return other_answer(rt, alloc, told),
    };
    answer_to(alloc, publish, 3_900_000_000, &said).expect(rt, "memory")
}

/// What it is answered where nothing is said, or a stop is.
fn other_answer(rt: &impl Abort, alloc: Global, told: &str) -> HttpAnswer {
    match told {
        "stop" => stop_answer(alloc).expect(rt, "memory"),
        "out of memory" => Refusal::OutOfMemory.answer(alloc).expect(rt, "memory"),
        "stopping" => Refusal::Stopping.answer(alloc).expect(rt, "memory"),
        _ => unknown(rt, told),
    }
}

/// Whether it is answered as the row wants.
fn holds(rt: &impl Abort, alloc: Global, row: &'static [u8]) -> bool {
    let (_, rest) = cut(row, b'|');
    let (asked, rest) = cut(rest, b'|');
    let (told, wanted) = cut(rest, b'|');
    let publish = is_first(rt, asked, b"publish", b"else");
    let answer = answer_of(rt, alloc, publish, text_of(rt, told));
    same(&text_of_answer(rt, alloc, &answer), wanted)
}

/// Whether a refusal is written so.
fn is_written(rt: &impl Abort, alloc: Global) -> bool {
    let answer = Refusal::MissingTopic.answer(alloc).expect(rt, "memory");
    let body = answer.body.bytes();
    let mut out = Vec::new(alloc);
    write_answer(alloc, answer.status, answer.json, body, &mut out).expect(rt, "memory");
    let wanted =
        b"HTTP/1.1 400 Bad Request\r\nContent-Type: application/json; charset=utf-8\r\nContent-Length: 31\r\nConnection: close\r\n\r\n{\"message\":\"MISSING_ARG_TOPIC\"}";
    same(&out, wanted)
}

#[test]
fn rows(rt: HostRuntime) {
    for row in &rows_of(&rt, rt.alloc(), ROWS, b'~') {
        let (name, _) = cut(row, b'|');
        check_row(&rt, holds(&rt, rt.alloc(), row), name);
    }
    check(&rt, is_written(&rt, rt.alloc()), "bytes");
}
