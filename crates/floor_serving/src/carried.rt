use broker_history::Turned;
use nsq_outside::End;

/// How an act ended that was carried out, and what its call is answered.
#[derive(Drop)]
pub struct Carried {
    /// Its end.
    pub end: End,
    /// The answer.
    pub answer: Turned,
}
