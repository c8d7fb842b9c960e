use v2_frame::Frame;

/// How a command ended whose reply is no error.
#[derive(Drop)]
pub enum Commanded {
    /// It was carried out.
    Done,
    /// A disk fault kept it off, which this frame says.
    Fault(Frame),
}
