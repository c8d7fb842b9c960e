use nsq_base::Options;

/// What the words of the command line ask for.
#[derive(Drop)]
pub enum Request {
    /// To serve with these options, each in its range.
    Serve(Options),
    /// To run the drill from this seed, at most 2^59, with so many publishes, at most 100000.
    Drill(u64, u64),
    /// clap's text of help, to be printed.
    Help(String),
    /// The text of the version, to be printed: `nsqd 1.0.0` and a line end.
    Version(String),
    /// Nothing that is known: the words aren't right.
    Unknown,
}
