//! Drills by the program's words: its status, what it prints and which line it tells. The host isn't used.

pub static ROWS: &'static str = r#"
drill 7 10
words drill 7 10
ends unused
ends printed published 10\nsent 10\nfinished 10\nleft 0\n

drill 7 0
words drill 7 0
ends unused
ends printed published 0\nsent 0\nfinished 0\nleft 0\n

drill 7 100
words drill 7 100
ends unused
ends printed published 100\nsent 100\nfinished 100\nleft 0\n

drill
words drill
ends unused
ends status 1
ends told nsqd: bad options

drill 7
words drill 7
ends unused
ends status 1
ends told nsqd: bad options

drill 7 10 1
words drill 7 10 1
ends unused
ends status 1
ends told nsqd: bad options

drill x 1
words drill x 1
ends unused
ends status 1
ends told nsqd: bad options

drill 576460752303423489 1
words drill 576460752303423489 1
ends unused
ends status 1
ends told nsqd: bad options

drill 1 100001
words drill 1 100001
ends unused
ends status 1
ends told nsqd: bad options

--sync-every=5 drill 7 10
words --sync-every=5 drill 7 10
ends unused
ends status 1
ends told nsqd: bad options
"#;
