//! Words that serve nobody: nothing is opened, and the folder stays empty.

pub static ROWS: &'static str = r#"
the version is printed
words --version
ends printed nsqd 1.0.0\n
lacks nsqd.dat

a size that is no number
words --mem-queue-size=x
ends status 1
ends told nsqd: bad options
lacks nsqd.dat

an option that is said twice
words --mem-queue-size=5 --mem-queue-size=5
ends status 1
ends told nsqd: bad options
lacks nsqd.dat

a message timeout above the longest
words --msg-timeout=16m
ends status 1
ends told nsqd: bad options
lacks nsqd.dat
"#;
