//! Texts that keep something.
//!
//! A row is a line: a text, and behind `=>` what is written of it, where `nothing`, `topic` and `channel` are the constants of these names; or
//! that it is `bad`.

use crate::check;
use crate::path::read_names::held::{is_bad, is_read};
use crate::text::{bytes_of, part};
use std::alloc::Global;
use std::process::Abort;

// What is written of nothing.
const NOTHING: &str = r#"{"id_epoch":0,"topics":[],"version":"1.0.0"}"#;

// What is written of one topic.
const TOPIC: &str =
    r#"{"id_epoch":0,"topics":[{"channels":[],"name":"t","paused":false}],"version":"1.0.0"}"#;

// What is written of one topic and its channel.
const CHANNEL: &str =
    r#"{"id_epoch":0,"topics":[{"channels":[{"name":"c","paused":false}],"name":"t","paused":false}],"version":"1.0.0"}"#;

// A text in which white space stands round what is nothing.
const SPACED: &str = " {\t}\r\n";

// What is written of each text. Members of the file: absent, null, unknown, given twice, and the ends of the epoch's range; members of topics and of channels,
// and their names; names out of order, and ephemeral ones.
static LINES: &'static str = r##"
{"id_epoch":0,"topics":[],"version":"1.0.0"} => nothing
{} => nothing
{"id_epoch":null,"topics":null} => nothing
{"id_epoch":0} => nothing
{"topics":[]} => nothing
{"version":3,"x":{"topics":1},"id_Epoch":-1,"Topics":1} => nothing
{"version":null} => nothing
{"id_epoch":1} => {"id_epoch":1,"topics":[],"version":"1.0.0"}
{"id_epoch":16777214} => {"id_epoch":16777214,"topics":[],"version":"1.0.0"}
{"id_epoch":16777215} => {"id_epoch":16777215,"topics":[],"version":"1.0.0"}
{"id_epoch":-1,"id_epoch":7} => {"id_epoch":7,"topics":[],"version":"1.0.0"}
{"topics":[{"name":"u"}],"topics":[{"name":"t"}]} => topic
{"version":"0.3.8","topics":[{"name":"t","paused":false,"channels":[]}],"id_epoch":0} => topic
{"id_epoch":0,"topics":[{"channels":[],"name":"t","paused":false}],"version":"1.0.0"} => topic
{"id_epoch":0,"topics":[{"channels":[{"name":"c","paused":false}],"name":"t","paused":false}],"version":"1.0.0"} => channel
{"topics":[{"name":"t"}]} => topic
{"topics":[{"channels":null,"name":"t","paused":null}]} => topic
{"topics":[{"x":1,"name":"t","Paused":3,"y":[null,{}]}]} => topic
{"topics":[{"name":"\u0074"}]} => topic
{"topics":[{"name":5,"name":"t"}]} => topic
{"topics":[{"name":"t","paused":true}]} => {"id_epoch":0,"topics":[{"channels":[],"name":"t","paused":true}],"version":"1.0.0"}
{"topics":[{"name":"t","channels":[{"name":"c"}]}]} => channel
{"topics":[{"name":"t","channels":[{"name":"c","paused":null,"x":[]}]}]} => channel
{"topics":[{"name":"t","channels":[{"name":"c","paused":true}]}]} => {"id_epoch":0,"topics":[{"channels":[{"name":"c","paused":true}],"name":"t","paused":false}],"version":"1.0.0"}
{"topics":[{"name":"t","paused":true,"channels":[{"name":"c","paused":false}]}]} => {"id_epoch":0,"topics":[{"channels":[{"name":"c","paused":false}],"name":"t","paused":true}],"version":"1.0.0"}
{"topics":[{"name":"t","paused":true,"channels":[{"name":"c","paused":true},{"name":"d"}]}]} => {"id_epoch":0,"topics":[{"channels":[{"name":"c","paused":true},{"name":"d","paused":false}],"name":"t","paused":true}],"version":"1.0.0"}
{"topics":[{"name":"t","channels":[{"name":"t"}]}]} => {"id_epoch":0,"topics":[{"channels":[{"name":"t","paused":false}],"name":"t","paused":false}],"version":"1.0.0"}
{"topics":[{"name":"t","channels":[{"name":"c"}]},{"name":"u","channels":[{"name":"c"}]}]} => {"id_epoch":0,"topics":[{"channels":[{"name":"c","paused":false}],"name":"t","paused":false},{"channels":[{"name":"c","paused":false}],"name":"u","paused":false}],"version":"1.0.0"}
{"topics":[{"name":".-_09AZaz"}]} => {"id_epoch":0,"topics":[{"channels":[],"name":".-_09AZaz","paused":false}],"version":"1.0.0"}
{"topics":[{"name":"abcdefghabcdefghabcdefghabcdefghabcdefghabcdefghabcdefghabcdefgh"}]} => {"id_epoch":0,"topics":[{"channels":[],"name":"abcdefghabcdefghabcdefghabcdefghabcdefghabcdefghabcdefghabcdefgh","paused":false}],"version":"1.0.0"}
{"topics":[{"name":"t","channels":[{"name":"abcdefghabcdefghabcdefghabcdefghabcdefghabcdefghabcdefghabcdefgh"}]}]} => {"id_epoch":0,"topics":[{"channels":[{"name":"abcdefghabcdefghabcdefghabcdefghabcdefghabcdefghabcdefghabcdefgh","paused":false}],"name":"t","paused":false}],"version":"1.0.0"}
{"topics":[{"name":"ephemeral"}]} => {"id_epoch":0,"topics":[{"channels":[],"name":"ephemeral","paused":false}],"version":"1.0.0"}
{"topics":[{"name":"b"},{"name":"a"}]} => {"id_epoch":0,"topics":[{"channels":[],"name":"a","paused":false},{"channels":[],"name":"b","paused":false}],"version":"1.0.0"}
{"topics":[{"name":"c","paused":true},{"name":"a"},{"name":"b"}]} => {"id_epoch":0,"topics":[{"channels":[],"name":"a","paused":false},{"channels":[],"name":"b","paused":false},{"channels":[],"name":"c","paused":true}],"version":"1.0.0"}
{"topics":[{"name":"t1"},{"name":"tt"},{"name":"t"},{"name":"T"}]} => {"id_epoch":0,"topics":[{"channels":[],"name":"T","paused":false},{"channels":[],"name":"t","paused":false},{"channels":[],"name":"t1","paused":false},{"channels":[],"name":"tt","paused":false}],"version":"1.0.0"}
{"topics":[{"name":"a"},{"name":"_"},{"name":"A"},{"name":"0"},{"name":"."},{"name":"-"}]} => {"id_epoch":0,"topics":[{"channels":[],"name":"-","paused":false},{"channels":[],"name":".","paused":false},{"channels":[],"name":"0","paused":false},{"channels":[],"name":"A","paused":false},{"channels":[],"name":"_","paused":false},{"channels":[],"name":"a","paused":false}],"version":"1.0.0"}
{"topics":[{"name":"t","channels":[{"name":"d"},{"name":"c","paused":true}]}]} => {"id_epoch":0,"topics":[{"channels":[{"name":"c","paused":true},{"name":"d","paused":false}],"name":"t","paused":false}],"version":"1.0.0"}
{"topics":[{"name":"e#ephemeral"}]} => nothing
{"topics":[{"name":"e#ephemeral"},{"name":"e#ephemeral"}]} => nothing
{"topics":[{"name":"t#ephemeral"},{"name":"t"},{"name":"t#ephemeral","paused":true}]} => topic
{"topics":[{"name":"abcdefghabcdefghabcdefghabcdefghabcdefghabcdefghabcdef#ephemeral"}]} => nothing
{"topics":[{"name":"t","channels":[{"name":"e#ephemeral","paused":true}]}]} => topic
{"topics":[{"name":"t","channels":[{"name":"e#ephemeral"},{"name":"e#ephemeral"}]}]} => topic
{"topics":[{"name":"t","channels":[{"name":"c#ephemeral"},{"name":"c"}]}]} => channel
{"topics":[{"name":"e#ephemeral","channels":[{"name":"c"},{"name":"d"}]}]} => nothing
{"id_epoch":9,"topics":[{"name":"z","channels":[{"name":"y","paused":true},{"name":"x"}]},{"name":"e#ephemeral"},{"name":"a","paused":true,"channels":[{"name":"c"},{"name":"b"}]}]} => {"id_epoch":9,"topics":[{"channels":[{"name":"b","paused":false},{"name":"c","paused":false}],"name":"a","paused":true},{"channels":[{"name":"x","paused":false},{"name":"y","paused":true}],"name":"z","paused":false}],"version":"1.0.0"}
"##;

// What is written, by the word of a row.
fn written_of(written: &str) -> &str {
    match written {
        "nothing" => NOTHING,
        "topic" => TOPIC,
        "channel" => CHANNEL,
        _ => written,
    }
}

/// Whether what the line says is written of its text.
pub fn holds(rt: &impl Abort, alloc: Global, line: &str) -> bool {
    let (text, written) = part(rt, line, " => ");
    let text = bytes_of(rt, alloc, text);
    match written {
        "bad" => is_bad(rt, alloc, &text),
        _ => is_read(rt, alloc, &text, written_of(written).as_bytes()),
    }
}

#[test]
fn rows(rt: HostRuntime) {
    let alloc = rt.alloc();
    check(
        &rt,
        is_read(&rt, alloc, SPACED.as_bytes(), NOTHING.as_bytes()),
        SPACED,
    );
    for row in LINES.trim().split('\n') {
        check(&rt, holds(&rt, alloc, row), row);
    }
}
