//! Rows, and whether one holds: its name, the moment at which a daemon was opened, in nanoseconds, what is told of its topics, and the text.

use crate::http::stats::told::stats_of;
use crate::same;
use crate::text::{check_row, cut, number_of, rows_of};
use broker_history::Stats;
use http_calls::stats_text;
use serde_json::Value;
use std::alloc::Global;
use std::process::Abort;

// What stands before the text.
const BEFORE: &[u8] = b"before";

static ROWS: &[u8] = b"\
no topic, opened at the beginning|0||{\"health\":\"OK\",\"start_time\":0,\"topics\":[],\"version\":\"1.0.0\"}~\
a nanosecond before a second|999999999||{\"health\":\"OK\",\"start_time\":0,\"topics\":[],\"version\":\"1.0.0\"}~\
a nanosecond before two seconds|1999999999||{\"health\":\"OK\",\"start_time\":1,\"topics\":[],\"version\":\"1.0.0\"}~\
a day of today|1764000000000000000||{\"health\":\"OK\",\"start_time\":1764000000,\"topics\":[],\"version\":\"1.0.0\"}~\
the last moment|18446744073709551615||{\"health\":\"OK\",\"start_time\":18446744073,\"topics\":[],\"version\":\"1.0.0\"}~\
two topics, with channels and clients|2000000000|\
orders.new 15 16 17 paused&archive 6 7 8 9 10 11 12 on;1 2 3 4 5 c1^host^go-nsq/1.1.0;\
0 0 0 0 0 ^\xc3\xa9\xe2\x82\xac^a \"quote\", a \\, \x01, \n and \x7f&tail#ephemeral 0 13 0 0 14 0 0 paused%tmp_1#ephemeral 0 0 18 on|\
{\"health\":\"OK\",\"start_time\":2,\"topics\":[{\"backend_depth\":15,\"channels\":[\
{\"backend_depth\":6,\"channel_name\":\"archive\",\"clients\":[\
{\"client_id\":\"c1\",\"finish_count\":1,\"hostname\":\"host\",\"in_flight_count\":2,\
\"message_count\":3,\"ready_count\":4,\"requeue_count\":5,\"user_agent\":\"go-nsq/1.1.0\"},\
{\"client_id\":\"\",\"finish_count\":0,\"hostname\":\"\xc3\xa9\xe2\x82\xac\",\"in_flight_count\":0,\
\"message_count\":0,\"ready_count\":0,\"requeue_count\":0,\
\"user_agent\":\"a \\\"quote\\\", a \\\\, \\u0001, \\n and \x7f\"}],\"deferred_count\":8,\"depth\":7,\
\"in_flight_count\":9,\"message_count\":10,\"paused\":false,\"requeue_count\":11,\"timeout_count\":12},\
{\"backend_depth\":0,\"channel_name\":\"tail#ephemeral\",\"clients\":[],\"deferred_count\":0,\"depth\":13,\
\"in_flight_count\":0,\"message_count\":14,\"paused\":true,\"requeue_count\":0,\"timeout_count\":0}],\"depth\":16,\
\"message_count\":17,\"paused\":true,\"topic_name\":\"orders.new\"},{\"backend_depth\":0,\"channels\":[],\"depth\":0,\
\"message_count\":18,\"paused\":false,\"topic_name\":\"tmp_1#ephemeral\"}],\"version\":\"1.0.0\"}~\
the greatest counts and depths|0|\
t 18446744073709551616 340282366920938463463374607431768211455 18446744073709551615 on&\
c 10000000000000000000 18446744073709551615 18446744073709551615 18446744073709551615 18446744073709551615 18446744073709551615 18446744073709551615 on;18446744073709551615 18446744073709551615 18446744073709551615 18446744073709551615 18446744073709551615 ^^|\
{\"health\":\"OK\",\"start_time\":0,\"topics\":[{\"backend_depth\":18446744073709551616,\"channels\":[\
{\"backend_depth\":10000000000000000000,\"channel_name\":\"c\",\"clients\":[\
{\"client_id\":\"\",\"finish_count\":18446744073709551615,\"hostname\":\"\",\"in_flight_count\":18446744073709551615,\
\"message_count\":18446744073709551615,\"ready_count\":18446744073709551615,\"requeue_count\":18446744073709551615,\
\"user_agent\":\"\"}],\"deferred_count\":18446744073709551615,\"depth\":18446744073709551615,\
\"in_flight_count\":18446744073709551615,\"message_count\":18446744073709551615,\"paused\":false,\
\"requeue_count\":18446744073709551615,\"timeout_count\":18446744073709551615}],\
\"depth\":340282366920938463463374607431768211455,\
\"message_count\":18446744073709551615,\"paused\":false,\"topic_name\":\"t\"}],\"version\":\"1.0.0\"}~\
texts that aren't UTF-8|0|t 0 0 0 on&c 0 0 0 0 0 0 0 on;0 0 0 0 0 \xff^a\xc3^\xe2\x82b\x80\"|\
{\"health\":\"OK\",\"start_time\":0,\"topics\":[{\"backend_depth\":0,\"channels\":[\
{\"backend_depth\":0,\"channel_name\":\"c\",\"clients\":[\
{\"client_id\":\"\xef\xbf\xbd\",\"finish_count\":0,\"hostname\":\"a\xef\xbf\xbd\",\"in_flight_count\":0,\
\"message_count\":0,\"ready_count\":0,\"requeue_count\":0,\"user_agent\":\"\xef\xbf\xbdb\xef\xbf\xbd\\\"\"}],\
\"deferred_count\":0,\"depth\":0,\"in_flight_count\":0,\"message_count\":0,\"paused\":false,\
\"requeue_count\":0,\"timeout_count\":0}],\"depth\":0,\"message_count\":0,\"paused\":false,\"topic_name\":\"t\"}],\
\"version\":\"1.0.0\"}~\
";

// Whether a row holds: the text stands behind what stood there, and a reader of JSON reads it as an object of four members.
fn holds(rt: &impl Abort, alloc: Global, row: &'static [u8]) -> bool {
    let (_, rest) = cut(row, b'|');
    let (began, rest) = cut(rest, b'|');
    let (topics, wanted) = cut(rest, b'|');
    let stats = stats_of(rt, alloc, topics);
    is_told(alloc, &stats, number_of(rt, began), wanted)
}

// Whether this text is told of the statistics.
fn is_told(alloc: Global, stats: &Stats, began: u64, wanted: &[u8]) -> bool {
    let Ok(mut out) = BEFORE.to_vec(alloc) else {
        return false;
    };
    let done = stats_text(alloc, stats, began, &mut out).is_ok();
    match out.strip_prefix(BEFORE) {
        Some(text) => done && same(text, wanted) && is_read(alloc, text),
        None => false,
    }
}

// Whether a reader of JSON reads the text as such an object.
fn is_read(alloc: Global, text: &[u8]) -> bool {
    match Value::from_slice(alloc, text) {
        Ok(value) => has_four(&value),
        Err(_) => false,
    }
}

// Whether it is an object of four members.
fn has_four(value: &Value) -> bool {
    match value.as_object() {
        Some(members) => members.len() == 4,
        None => false,
    }
}

#[test]
fn rows(rt: HostRuntime) {
    for row in &rows_of(&rt, rt.alloc(), ROWS, b'~') {
        let (name, _) = cut(row, b'|');
        check_row(&rt, holds(&rt, rt.alloc(), row), name);
    }
}
