ghost use Rattle.std.specs.Prelude.{◌≡◌, ◌≤◌, ◌<◌, All, IfErr, IfOk, IsTrue, List, None, OnErr, OnOk, [], ◌∷◌, ◌++◌, false, vec_capacity, vec_len};
ghost use Rattle.std.specs.VecDeque.{deque_capacity, deque_len};
ghost use Rattle.nsq_base.specs.Name.{is_ephemeral};
ghost use Rattle.nsq_base.specs.Places.{BelongsAt};
ghost use Rattle.queue_opening.specs.Refusals.{OpenFails};
ghost use Rattle.disk_queue.specs.Opened.{FilesOfChange};
ghost use Rattle.v2_frame.specs.declared.message.Message.{Message};
ghost use Rattle.path_image.specs.Found.{HasMessages};
ghost use Rattle.backlog.specs.Lists.{IsFoundAgain, OpenRefused};
ghost use Rattle.topic_core.specs.Rows.{found_topic, paused_in};
ghost use Rattle.floor_rooms.specs.Rooms.{put_room, room_in, topic_name};
ghost use Rattle.floor_rooms.specs.Sound.{IsSound};
ghost use Rattle.floor_rooms.specs.Standing.{IsRoomOf};
ghost use Rattle.floor_files.specs.Opened.{AreApart, BadStays, FindsBack, FindsThem, IsOpenedRoom, ListsStay, NoneIsBad, OnlyTheirFiles, OnlyTopicFiles, OpensRoom, OpensTo, RefusesTopic};

use crate::channels::open_channels;
use floor_rooms::{Hall, Room};
use nsq_base::{Chan, Topic};
use nsq_outside::Folder;
use queue_opening::Open;
use topic_core::TopicQueue;

/// Opens the queue of a durable topic and those of these durable channels of it, each with its pause, and puts the topic with them into the hall. Errors are
/// those of `TopicQueue::open` and `Channel::open`: then the hall has the topics that it had. Requires a sound hall that has no topic of this name, and
/// channels whose names differ.
pub fn open_topic<F: Folder>(
    hall: &mut Hall,
    topic: Topic,
    paused: bool,
    channels: &[(Chan, bool)],
    folder: &mut F,
) -> Result<(), Open>
    requires sound { IsSound hall.old }
    requires durable { is_ephemeral topic ≡ false }
    requires channels { All (λ c. is_ephemeral c.0 ≡ false) channels.now }
    requires apart { AreApart channels.now }
    requires new { room_in hall.old.rooms.items topic ≡ None }
    ensures opens { OnOk result (OpensRoom hall.old.options topic paused hall.old.rooms.items hall.new.rooms.items) }
    ensures told { IsTrue F.tells_files → OnOk result (OpensTo topic paused channels.now hall.old (F.files folder.old) hall.new (F.files folder.new)) }
    ensures again { IsTrue F.tells_files → ListsStay (F.files folder.old) (F.files folder.new) }
    ensures good { IsTrue F.tells_files → OnOk result (NoneIsBad topic channels.now (F.files folder.old)) }
    ensures theirs { IsTrue F.tells_files → OnlyTheirFiles topic channels.now (F.files folder.old) (F.files folder.new) }
    ensures bad { IsTrue F.tells_files → OnOk result (BadStays (F.files folder.old) (F.files folder.new)) }
    ensures finds { IsTrue F.tells_files → OnOk result (FindsThem topic channels.now (F.files folder.old)) }
    ensures back { IsTrue F.tells_files → OnOk result (FindsBack (F.files folder.old) (F.files folder.new)) }
    ensures same { OnErr result (hall.new.rooms.items ≡ hall.old.rooms.items) }
    ensures rest { hall.new ≡ record hall.old { rooms = hall.new.rooms; pending = hall.new.pending } }
    ensures sound { IsSound hall.new }
    ensures refused { IsTrue F.tells_files → IfErr result (λ e. RefusesTopic topic channels.now (F.files folder.old) (F.files folder.new) e) }
    ensures files { IsTrue F.tells_files → OnlyTopicFiles topic (F.files folder.old) (F.files folder.new) }
    ensures faults { F.folder_faults folder.old ≤ F.folder_faults folder.new }
    ensures cause { IfErr result (λ e. OpenFails (F.folder_faults folder.old) (F.folder_faults folder.new) e) }
{
    hall.reserve_room()?;
    let mut room = open_queue(hall, topic, paused, folder)?;
    match open_channels(hall, &mut room, topic, channels, folder) {
        Ok(()) => {
            put_room(hall, room);
            Ok(())
        }
        Err(refusal) => {
            let_go(room);
            Err(refusal)
        }
    }
}

// A topic goes here that isn't put in, where nothing else is held beside it.
fn let_go(_room: Room) {}

// Opens the queue of a durable topic, which has no channel yet. Errors are those of `TopicQueue::open`.
fn open_queue<F: Folder>(
    hall: &Hall,
    topic: Topic,
    paused: bool,
    folder: &mut F,
) -> Result<Room, Open>
    requires { is_ephemeral topic ≡ false }
    ensures room { IfOk result (IsOpenedRoom hall.now.options topic paused) }
    ensures empty { IfOk result (λ r. r.stalls.items ≡ []) }
    ensures told { IsTrue F.tells_files → IfOk result (λ r. (messages : List Message) → HasMessages (F.files folder.old) topic messages → IsRoomOf (F.files folder.new) r (paused_in paused (found_topic topic messages))) }
    ensures again { IsTrue F.tells_files → OnOk result (IsFoundAgain topic (F.files folder.old) (F.files folder.new)) }
    ensures refused { IsTrue F.tells_files → IfErr result (λ e. OpenRefused topic (F.files folder.old) (F.files folder.new) e) }
    ensures others { IsTrue F.tells_files → FilesOfChange topic (F.files folder.old) (F.files folder.new) }
    ensures faults { F.folder_faults folder.old ≤ F.folder_faults folder.new }
    ensures cause { IfErr result (λ e. OpenFails (F.folder_faults folder.old) (F.folder_faults folder.new) e) }
{
    let _ = topic.bytes();
    let mut queue = TopicQueue::open(hall.alloc, folder, topic, &hall.options)?;
    let _ = queue.name();
    queue.pause(paused);
    Ok(Room {
        queue,
        since: None,
        listed: true,
        names: None,
        stalls: Vec::new(hall.alloc),
    })
}

// Puts an opened topic into the hall where it belongs; its name, which is on disk, isn't unsaved by that. Requires that there is room for one more, and that
// the hall has none of its name.
fn put_room(hall: &mut Hall, room: Room)
    requires sound { IsSound hall.old }
    requires new { room_in hall.old.rooms.items (topic_name room) ≡ None }
    requires space { vec_len hall.old.rooms < vec_capacity hall.old.rooms }
    requires list { deque_len hall.old.pending < deque_capacity hall.old.pending }
    ensures rest { hall.new ≡ record hall.old { rooms = hall.new.rooms; pending = hall.new.pending } }
    ensures rooms { hall.new.rooms.items ≡ put_room hall.old.rooms.items room }
    ensures pending { hall.new.pending.items ≡ hall.old.pending.items ++ topic_name room ∷ [] }
{
    match hall.place_of(room.name()) {
        Ok(_) => unreachable!(),
        Err(i) => insert_room(hall, i, room),
    }
}

// Puts an opened topic into the hall at the place where it belongs. Requires that there is room for one more.
fn insert_room(hall: &mut Hall, i: usize, room: Room)
    requires place { BelongsAt topic_name hall.old.rooms.items (topic_name room) i }
    requires space { vec_len hall.old.rooms < vec_capacity hall.old.rooms }
    requires list { deque_len hall.old.pending < deque_capacity hall.old.pending }
    ensures rest { hall.new ≡ record hall.old { rooms = hall.new.rooms; pending = hall.new.pending } }
    ensures rooms { hall.new.rooms.items ≡ put_room hall.old.rooms.items room }
    ensures pending { hall.new.pending.items ≡ hall.old.pending.items ++ topic_name room ∷ [] }
{
    let name = room.name();
    let unsaved = hall.unsaved_names;
    hall.add_room(i, room);
    hall.pending.push_back_reserved(name);
    hall.unsaved_names = unsaved;
}
