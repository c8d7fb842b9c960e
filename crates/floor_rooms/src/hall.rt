ghost use Rattle.std.specs.Prelude.{◌≡◌, ◌<◌, ◌^◌, ℕ, List, max, min};
ghost use Rattle.nsq_base.specs.Options.{IsInRange};
ghost use Rattle.nsq_outside.specs.Files.{Files};
ghost use Rattle.broker_history.specs.State.{State};
ghost use Rattle.floor_rooms.specs.Made.{IsEmptyHall, IsUnused, empty_state};
ghost use Rattle.floor_rooms.specs.Sound.{IsSound};
ghost use Rattle.floor_rooms.specs.Standing.{HoldsFor, StandsFor};

use crate::{Client, Room};
use nsq_base::{Options, Topic};
use std::alloc::Global;
use std::collections::VecDeque;

/// The latest moment that is told of the clock, in nanoseconds.
const LAST_MOMENT: u64 = 1 << 62;

/// All of a floor but its folder, its clock and its journal.
#[derive(Drop)]
pub struct Hall {
    /// What its topics, channels and clients are made with.
    pub alloc: Global,
    /// The daemon's options.
    pub options: Options,
    /// The run's epoch.
    pub epoch: u32,
    /// The moment of the opening, in nanoseconds.
    pub began_at: u64,
    /// How many ids were used in this run.
    pub ids_used: u64,
    /// The moment of the last turn, in nanoseconds.
    pub moment: u64,
    /// Whether a Stop was noted.
    pub stopped: bool,
    /// Whether a disk fault kept the Stop's turn from paying all that was owed.
    pub stuck: bool,
    /// Whether durable names or pauses changed since they were saved.
    pub unsaved_names: bool,
    /// The clients that are there, by their numbers.
    pub clients: Vec<Client>,
    /// The topics, in byte order of their names.
    pub rooms: Vec<Room>,
    /// The topics that may have something to take or to pay, in the order in which they came to; no other topic has.
    pub pending: VecDeque<Topic>,
    /// Before this moment no copy of any channel is due.
    pub quiet_until: u64,
    /// No queue is unsaved since before this moment.
    pub unsaved_from: u64,
}

impl Hall {
    /// A hall with no topic and no client, which begins at this reading of the clock, or at 2^62 where that is later. Takes no memory. Requires
    /// options in their ranges and an epoch below 2^24.
    pub fn new(alloc: Global, options: Options, epoch: u32, reading: u64) -> Hall
        requires options { IsInRange options }
        requires epoch { epoch < 2 ^ 24 }
        ensures is { IsEmptyHall options epoch (min reading (2 ^ 62)) result }
        ensures sound { IsSound result }
        ensures opens { (files : Files) → StandsFor result files (empty_state options epoch (min reading (2 ^ 62))) }
        ensures stands { (files : Files) → IsUnused files → HoldsFor result files (empty_state options epoch (min reading (2 ^ 62))) }
    {
        let moment = reading.min(LAST_MOMENT);
        Hall {
            alloc,
            options,
            epoch,
            began_at: moment,
            ids_used: 0,
            moment,
            stopped: false,
            stuck: false,
            unsaved_names: false,
            clients: Vec::new(alloc),
            rooms: Vec::new(alloc),
            pending: VecDeque::new(alloc),
            quiet_until: u64::MAX,
            unsaved_from: u64::MAX,
        }
    }

    /// The clock was read: the moment is that reading, or 2^62 where it is later, and never an earlier one than before.
    pub fn pass(&mut self, reading: u64)
        requires { IsSound self.old }
        ensures is { self.new ≡ record self.old { moment = max self.old.moment (min reading (2 ^ 62)) } }
        ensures sound { IsSound self.new }
        ensures stands { (files : Files) (s : State) → HoldsFor self.old files s → HoldsFor self.new files s }
    {
        self.moment = self.moment.max(reading.min(LAST_MOMENT));
    }
}
