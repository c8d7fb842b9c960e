//! The message daemon. It serves clients of the V2 protocol and of HTTP, one after another, until a `POST /stop`, which
//! `--http-stop` allows. A clean stop leaves the messages in its folder.
#![tactic(auto)]

use daemon_main::{Ending, line, nsqd_run, status};
use nsqd_host::SysHost;
use std::alloc::Global;
use std::io::Eprint;
use std::process::ExitCode;
use std::{env, str};

fn main(rt: HostRuntime) -> ExitCode {
    let alloc = rt.alloc();
    let words = match words_of(&rt, alloc) {
        Ok(words) => words,
        Err(ending) => return ended(&rt, ending),
    };
    let own: Result<_, _> = rt.clone();
    let Ok(own) = own else {
        return ended(&rt, Ending::Memory);
    };
    let Ok(mut host) = SysHost::new(own, alloc) else {
        return ended(&rt, Ending::Memory);
    };
    ExitCode::from(nsqd_run(&rt, alloc, &words, &mut host))
}

/// The status of an ending before the run. Its line is told; what the system says of that changes nothing.
fn ended(rt: &HostRuntime, ending: Ending) -> ExitCode {
    let text = str::from_utf8(line(ending).unwrap_or(b"")).unwrap_or("");
    let _ = rt.eprintln(text);
    ExitCode::from(status(ending))
}

/// The words that the program was started with, or how it ends without them.
fn words_of(rt: &HostRuntime, alloc: Global) -> Result<Vec<String>, Ending> {
    let Ok(words) = env::args(rt) else {
        return Err(Ending::BadOptions);
    };
    match words.collect::<Vec<String>>(alloc) {
        Ok(words) => Ok(words),
        Err(_) => Err(Ending::Memory),
    }
}
