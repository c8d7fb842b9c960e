ghost use Rattle.std.specs.Prelude.{◌≡◌, option_map};
ghost use Rattle.daemon_endings.specs.Statuses.{line_of, status_of};
ghost use Rattle.daemon_endings.specs.declared.ending.Ending.TheVariants.{Served};

use crate::serving::ServeEnd;

/// How the program ended.
#[derive(Clone, Copy)]
pub enum Ending {
    /// It served.
    Served(ServeEnd),
    /// What the words ask for was printed.
    Printed,
    /// The words aren't right.
    BadOptions,
    /// Standard output failed.
    OutputFault,
    /// Want of memory before it served, or in a drill.
    Memory,
}

/// The status of the program.
pub fn status(ending: Ending) -> u8
    ensures { result ≡ status_of ending }
{
    match ending {
        Ending::Served(end) => serve_status(end),
        Ending::Printed => 0,
        Ending::BadOptions => 1,
        Ending::OutputFault => 6,
        Ending::Memory => 5,
    }
}

/// The status of a run that served.
fn serve_status(end: ServeEnd) -> u8
    ensures { result ≡ status_of (Served end) }
{
    match end {
        ServeEnd::Clean => 0,
        ServeEnd::BadData | ServeEnd::EpochSpent | ServeEnd::OpeningFault => 2,
        ServeEnd::StopFault => 3,
        ServeEnd::AcceptFailed => 4,
        ServeEnd::Memory => 5,
    }
}

/// The line that is told, without its line end, where one is.
pub fn line(ending: Ending) -> Option<&'static [u8]>
    ensures { option_map (λ line. line.now) result ≡ line_of ending }
{
    match ending {
        Ending::Served(end) => serve_line(end),
        Ending::Printed => None,
        Ending::BadOptions => Some(b"nsqd: bad options"),
        Ending::OutputFault => Some(b"nsqd: output fault"),
        Ending::Memory => Some(b"nsqd: out of memory"),
    }
}

/// The line of a run that served.
fn serve_line(end: ServeEnd) -> Option<&'static [u8]>
    ensures { option_map (λ line. line.now) result ≡ line_of (Served end) }
{
    match end {
        ServeEnd::Clean => None,
        ServeEnd::BadData => Some(b"nsqd: data path: bad data"),
        ServeEnd::EpochSpent => Some(b"nsqd: data path: ids spent"),
        ServeEnd::OpeningFault => Some(b"nsqd: data path: disk fault"),
        ServeEnd::StopFault => Some(b"nsqd: stop: disk fault"),
        ServeEnd::AcceptFailed => Some(b"nsqd: accept failed"),
        ServeEnd::Memory => Some(b"nsqd: out of memory"),
    }
}
