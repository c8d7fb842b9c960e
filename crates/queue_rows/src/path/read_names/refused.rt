//! Texts that are bad.

use crate::check;
use crate::path::read_names::held::is_bad;

// Each of these lines is bad: no object in JSON; epochs and lists of topics that are of another kind or out of range; topics; channels.
static LINES: &'static str = r##"
null
[]
true
0
"{}"
{
{}}
{} x
{}{}
{"a":1,}
{a:1}
{"a":01}
{"a":"\ud800"}
{"a":1e400}
{"topics":[{"name":"t"}]
{"id_epoch":16777216}
{"id_epoch":4294967296}
{"id_epoch":18446744073709551616}
{"id_epoch":-1}
{"id_epoch":-0}
{"id_epoch":1.5}
{"id_epoch":1.0}
{"id_epoch":1e0}
{"id_epoch":"1"}
{"id_epoch":true}
{"id_epoch":[]}
{"id_epoch":{}}
{"id_epoch":7,"id_epoch":16777216}
{"topics":0}
{"topics":"t"}
{"topics":true}
{"topics":{}}
{"topics":[null]}
{"topics":["t"]}
{"topics":[[]]}
{"topics":[{"name":"t"},1]}
{"topics":[{}]}
{"topics":[{"paused":true}]}
{"topics":[{"name":null}]}
{"topics":[{"name":1}]}
{"topics":[{"name":["t"]}]}
{"topics":[{"name":""}]}
{"topics":[{"name":"a b"}]}
{"topics":[{"name":"é"}]}
{"topics":[{"name":"t\u0000"}]}
{"topics":[{"name":"#ephemeral"}]}
{"topics":[{"name":"t#ephemera"}]}
{"topics":[{"name":"t#ephemeral#ephemeral"}]}
{"topics":[{"name":"abcdefghabcdefghabcdefghabcdefghabcdefghabcdefghabcdefghabcdefghi"}]}
{"topics":[{"name":"abcdefghabcdefghabcdefghabcdefghabcdefghabcdefghabcdefg#ephemeral"}]}
{"topics":[{"name":"t","paused":0}]}
{"topics":[{"name":"t","paused":"true"}]}
{"topics":[{"name":"t","paused":[]}]}
{"topics":[{"name":"e#ephemeral","paused":1}]}
{"topics":[{"name":"t"},{"name":"t"}]}
{"topics":[{"name":"t"},{"name":"a"},{"name":"z"},{"name":"t","paused":true}]}
{"topics":[{"name":"t"},{"name":"e#ephemeral"},{"name":"\u0074"}]}
{"topics":[{"name":"t","channels":0}]}
{"topics":[{"name":"t","channels":"c"}]}
{"topics":[{"name":"t","channels":false}]}
{"topics":[{"name":"t","channels":{}}]}
{"topics":[{"name":"t","channels":[null]}]}
{"topics":[{"name":"t","channels":["c"]}]}
{"topics":[{"name":"t","channels":[{}]}]}
{"topics":[{"name":"t","channels":[{"name":null}]}]}
{"topics":[{"name":"t","channels":[{"name":1}]}]}
{"topics":[{"name":"t","channels":[{"name":""}]}]}
{"topics":[{"name":"t","channels":[{"name":"a/b"}]}]}
{"topics":[{"name":"t","channels":[{"name":"abcdefghabcdefghabcdefghabcdefghabcdefghabcdefghabcdefghabcdefghi"}]}]}
{"topics":[{"name":"t","channels":[{"name":"c","paused":1}]}]}
{"topics":[{"name":"t","channels":[{"name":"c","paused":{}}]}]}
{"topics":[{"name":"t","channels":[{"name":"e#ephemeral","paused":"x"}]}]}
{"topics":[{"name":"t","channels":[{"name":"c"},{"name":"c"}]}]}
{"topics":[{"name":"t","channels":[{"name":"c","paused":true},{"name":"b"},{"name":"c"}]}]}
{"topics":[{"name":"a"},{"name":"t","channels":[{"name":"c"},{"name":"c"}]}]}
{"topics":[{"name":"e#ephemeral","channels":[{"name":"c"},{"name":"c"}]}]}
{"topics":[{"name":"e#ephemeral","channels":[{"name":"a b"}]}]}
"##;

// Each of these is bad, and can't be seen in a line.
static UNSEEN: [&'static str; 3] = ["", " ", "\u{feff}{}"];

#[test]
fn texts(rt: HostRuntime) {
    for text in &UNSEEN {
        check(&rt, is_bad(&rt, rt.alloc(), text.as_bytes()), text);
    }
    for text in LINES.trim().split('\n') {
        check(&rt, is_bad(&rt, rt.alloc(), text.as_bytes()), text);
    }
}
