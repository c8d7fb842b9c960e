//! What an accept's errors mean. A row is a text: what the error means, Linux's number of it, and its name.

use crate::check;
use crate::words::{cut, is};
use nsq_system::{NoCaller, no_caller};
use std::io::Error;
use std::process::Abort;

static ROWS: &'static str = "
nobody 11 EAGAIN: nobody called
lost 1 EPERM: a firewall forbids the caller
lost 4 EINTR: an interrupted call
lost 64 ENONET
lost 71 EPROTO
lost 92 ENOPROTOOPT
lost 95 EOPNOTSUPP
lost 100 ENETDOWN
lost 101 ENETUNREACH
lost 103 ECONNABORTED: the caller gave up
lost 112 EHOSTDOWN
lost 113 EHOSTUNREACH
shortage 12 ENOMEM
shortage 23 ENFILE
shortage 24 EMFILE
shortage 105 ENOBUFS
broken 9 EBADF
broken 22 EINVAL: it doesn't listen
broken 88 ENOTSOCK
broken 2 ENOENT
";

/// The word of what an error means.
fn word_of(means: NoCaller) -> &'static str {
    match means {
        NoCaller::Nobody => "nobody",
        NoCaller::Lost => "lost",
        NoCaller::Shortage => "shortage",
        NoCaller::Broken => "broken",
    }
}

fn holds(rt: &impl Abort, row: &str) -> bool {
    let (means, rest) = cut(row);
    let (code, _) = cut(rest);
    let code = code.parse::<i32>().expect(rt, "a number");
    is(means, word_of(no_caller(&Error::from_raw_os_error(code))))
}

#[test]
fn rows(rt: HostRuntime) {
    for row in ROWS.trim().split('\n') {
        check(&rt, holds(&rt, row), row);
    }
}
