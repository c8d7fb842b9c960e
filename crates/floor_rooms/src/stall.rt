ghost use Rattle.std.specs.Prelude.{◌≡◌};
ghost use Rattle.nsq_base.specs.Name.{IsName};
ghost use Rattle.floor_rooms.specs.Rooms.{channel_name};

use channel_core::Channel;
use nsq_base::Chan;

/// A channel of a topic, as a hall keeps it.
#[derive(Drop)]
pub struct Stall {
    /// Its copies and its clients.
    pub channel: Channel,
    /// The moment since which its queue on disk may be unsaved; None where it is saved.
    pub since: Option<u64>,
    /// The numbers of its clients, ascending.
    pub members: Vec<u64>,
}

impl Stall {
    /// The channel's name.
    pub fn name(&self) -> Chan
        ensures { result ≡ channel_name self.now }
    {
        self.channel.name()
    }
}
