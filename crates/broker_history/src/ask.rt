use crate::Stats;
use nsq_base::{Bodies, Chan, Memory, Topic};
use nsq_outside::Twin;
use std::alloc::Global;

/// What is asked of the daemon over HTTP.
#[derive(Drop)]
pub enum Ask {
    /// Publish messages of these bodies to a topic, with a delay in nanoseconds.
    Publish(Topic, u64, Bodies),
    /// Tell the statistics, of one topic or of all, and in each of one channel or of all.
    Stats(Option<Topic>, Option<Chan>),
    /// Make a topic, or a channel of a topic that is there.
    Create(Topic, Option<Chan>),
    /// Delete a topic or a channel.
    Delete(Topic, Option<Chan>),
    /// Drop what waits in a topic, or all copies of a channel.
    Empty(Topic, Option<Chan>),
    /// Pause a topic or a channel.
    Pause(Topic, Option<Chan>),
    /// End such a pause.
    Unpause(Topic, Option<Chan>),
}

/// What is said to it.
#[derive(Drop)]
pub enum Said {
    /// It was done.
    Done,
    /// There is no such topic.
    NoTopic,
    /// There is no such channel.
    NoChannel,
    /// The run has no further ids.
    Ids,
    /// A disk fault kept it from being done.
    Disk,
    /// The statistics.
    Stats(Stats),
}

impl Twin for Ask {
    fn twin(&self, alloc: Global) -> Result<Ask, Memory> {
        Ok(match self {
            Ask::Publish(topic, delay, bodies) => {
                Ask::Publish(*topic, *delay, bodies.copy(alloc)?)
            }
            Ask::Stats(topic, channel) => Ask::Stats(*topic, *channel),
            Ask::Create(topic, channel) => Ask::Create(*topic, *channel),
            Ask::Delete(topic, channel) => Ask::Delete(*topic, *channel),
            Ask::Empty(topic, channel) => Ask::Empty(*topic, *channel),
            Ask::Pause(topic, channel) => Ask::Pause(*topic, *channel),
            Ask::Unpause(topic, channel) => Ask::Unpause(*topic, *channel),
        })
    }
}

impl Twin for Said {
    fn twin(&self, alloc: Global) -> Result<Said, Memory> {
        Ok(match self {
            Said::Done => Said::Done,
            Said::NoTopic => Said::NoTopic,
            Said::NoChannel => Said::NoChannel,
            Said::Ids => Said::Ids,
            Said::Disk => Said::Disk,
            Said::Stats(stats) => Said::Stats(stats.twin(alloc)?),
        })
    }
}
