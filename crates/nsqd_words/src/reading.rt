ghost use Rattle.std.specs.Prelude.{◌↔◌, IfOk, IsTrue, map, string_bytes};
ghost use Rattle.clap.specs.Words.{found_of, kind_of, rows_of};
ghost use Rattle.nsqd_words.specs.Command.{found_in, refusal_of};
ghost use Rattle.nsqd_words.specs.Parts.{AsksByFound, AsksByKind, AsksClap};
ghost use Rattle.nsqd_words.specs.Requests.{Asks, BeginsDrill};

use crate::Request;
use crate::command::nsqd_command;
use crate::numbers::read_number_up_to;
use crate::options::read_options;
use clap::error::ErrorKind;
use clap::{ArgMatches, Error};
use nsq_base::Memory;
use std::alloc::Global;

/// What the words of the command line ask for, of which the first is the program's name. Want of memory is the only error.
///
/// Where the first word behind the name is `drill`, two numbers have to follow. All other words are options, as clap reads
/// them.
pub fn read_words(alloc: Global, words: &[String]) -> Result<Request, Memory>
    ensures { IfOk result (Asks (map string_bytes words.now)) }
{
    if begins_drill(words) {
        return Ok(read_drill(words));
    }
    read_for_clap(alloc, words)
}

// Whether the first word behind the program's name is `drill`.
fn begins_drill(words: &[String]) -> bool
    ensures { IsTrue result ↔ BeginsDrill (map string_bytes words.now) }
{
    match words.get(1) {
        Some(word) => word.as_str() == "drill",
        None => false,
    }
}

// What the words of a drill ask for.
fn read_drill(words: &[String]) -> Request
    requires { BeginsDrill (map string_bytes words.now) }
    ensures { Asks (map string_bytes words.now) result }
{
    let [_, _, seed, count] = words else {
        return Request::Unknown;
    };
    let Some(seed) = read_number_up_to(seed.as_bytes(), 1 << 59) else {
        return Request::Unknown;
    };
    let Some(count) = read_number_up_to(count.as_bytes(), 100_000) else {
        return Request::Unknown;
    };
    Request::Drill(seed, count)
}

// What the words ask for that are given to clap.
fn read_for_clap(alloc: Global, words: &[String]) -> Result<Request, Memory>
    ensures { IfOk result (AsksClap (refusal_of (map string_bytes words.now)) (found_in (map string_bytes words.now))) }
{
    let command = nsqd_command(alloc)?;
    match command.try_get_matches_from(words) {
        Ok(matches) => by_matches(alloc, &matches),
        Err(error) => by_kind(alloc, &error),
    }
}

// What is asked for where clap has matches.
fn by_matches(alloc: Global, matches: &ArgMatches<'_>) -> Result<Request, Memory>
    ensures { IfOk result (AsksByFound (rows_of (found_of matches.now))) }
{
    let options = read_options(alloc, matches)?;
    match options {
        Some(options) => Ok(Request::Serve(options)),
        None => Ok(Request::Unknown),
    }
}

// What is asked for where clap has an error.
fn by_kind(alloc: Global, error: &Error) -> Result<Request, Memory>
    ensures { IfOk result (AsksByKind (kind_of error.now)) }
{
    match error.kind() {
        ErrorKind::OutOfMemory => Err(Memory),
        ErrorKind::DisplayHelp => Ok(Request::Help(format!(in alloc; "{error}")?)),
        ErrorKind::DisplayVersion => Ok(Request::Version(String::from_str(alloc, "nsqd 1.0.0\n")?)),
        _ => Ok(Request::Unknown),
    }
}
