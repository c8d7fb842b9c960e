use broker_history::Act;
use negotiation::Identity;

/// An act that a call leads to, with what an IDENTIFY that is accepted said.
#[derive(Drop)]
pub struct Planned {
    /// The act.
    pub act: Act,
    /// What the client said of itself.
    pub said: Option<Identity>,
}

/// What a call leads to.
#[derive(Drop)]
pub enum Plan {
    /// This act.
    Act(Planned),
    /// A message of the channel at these places of the hall is to be sent, if the client may get one.
    Draw(usize, usize),
}
