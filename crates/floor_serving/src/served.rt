/// How what was asked ended, where it is said to be done.
#[derive(Clone, Copy)]
pub enum Served {
    /// It was done.
    Done,
    /// A disk fault kept it off. Of a topic's deletion so many channels went before.
    Fault(u64),
}
