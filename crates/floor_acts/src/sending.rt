ghost use Rattle.std.specs.Prelude.{◌≡◌, ◌<◌, ◌≤◌, ◌^◌, ℕ, HoldsAt, IsSome, IsTrue, length, Bool, true};
ghost use Rattle.nsq_outside.specs.Files.{Files};
ghost use Rattle.backlog.specs.Seen.{FitsLimit};
ghost use Rattle.broker_history.specs.State.{counted};
ghost use Rattle.broker_history.specs.Step.{DoesSend};
ghost use Rattle.channel_copies.specs.Clients.{client_of};
ghost use Rattle.channel_core.specs.declared.answers.Next.TheVariants as next;
ghost use Rattle.channel_core.specs.Drawing.{DrawFails, IsDrawnFor};
ghost use Rattle.floor_rooms.specs.Changes.{AtStall, KeepsRooms, OnlyQueueFiles};
ghost use Rattle.floor_rooms.specs.Sound.{IsSound};
ghost use Rattle.floor_rooms.specs.Standing.{Carries};
ghost use Rattle.floor_rooms.specs.declared.hall.Hall.{Hall as Holding};
ghost use Rattle.floor_acts.specs.Acts.{ChangesAt};
ghost use Rattle.floor_acts.specs.Sending.{DrawsStall, HasDrawn, IsDrawnForSome, IsToSend, IsUndrawn, SendsStall, UnsendsStall};

use channel_core::Next;
use floor_rooms::Hall;
use nsq_base::Steps;
use nsq_outside::Folder;
use std::sync::ledger::Ledger;
use v2_frame::Message;

/// The next copy for the client of this number, of the channel at a place, as `Channel::next`; the channel is marked before. `settle_sent` or `undo_sent`
/// comes next where it is to be sent, and what holds it back where its id is in flight; every other answer leaves what the hall stands for. Requires
/// that the channel has the client, and 16,777,242 bytes of `scratch`.
pub fn draw<F: Folder>(
    hall: &mut Hall,
    i: usize,
    j: usize,
    number: u64,
    folder: &mut F,
    scratch: &mut [u8],
) -> Next
    requires sound { IsSound hall.old }
    requires room { i < length hall.old.rooms.items }
    requires stall { HoldsAt (λ r. j < length r.stalls.items) hall.old.rooms.items i }
    requires client { HoldsAt (λ r. HoldsAt (λ s. IsSome (client_of s.channel.clients number)) r.stalls.items j) hall.old.rooms.items i }
    requires scratch { 16777242 ≤ length scratch.old }
    ensures drawn { HasDrawn F.tells_files i j number result (F.files folder.old) (F.files folder.new) (F.folder_faults folder.old) (F.folder_faults folder.new) hall.old hall.new }
    ensures sound { IsUndrawn result → IsSound hall.new }
    ensures told { IsUndrawn result → IsTrue F.tells_files → Carries hall.old (F.files folder.old) hall.new (F.files folder.new) (λ s t. t ≡ s) }
    ensures keeps { KeepsRooms hall.old.moment hall.old.rooms.items hall.new.rooms.items }
    ensures files { IsTrue F.tells_files → OnlyQueueFiles (F.files folder.old) (F.files folder.new) }
    ensures faults { F.folder_faults folder.old ≤ F.folder_faults folder.new }
    ensures fault { DrawFails (F.folder_faults folder.old) (F.folder_faults folder.new) result }
{
    hall.mark_stall(i, j);
    draw_at(hall, i, j, number, folder, scratch)
}

/// The message that `draw` gave for the client at a place, which has this number, is sent: it is in flight, and the client counts it. Requires the places
/// of that `draw`.
pub fn settle_sent<F: Folder, L: Ledger>(
    hall: &mut Hall,
    k: usize,
    i: usize,
    j: usize,
    message: Message,
    folder: &mut F,
    steps: &mut Steps<L>,
)
    requires client { k < length hall.old.clients.items }
    requires room { i < length hall.old.rooms.items }
    requires stall { HoldsAt (λ r. j < length r.stalls.items) hall.old.rooms.items i }
    requires drawn { HoldsAt (λ c. HoldsAt (λ r. HoldsAt (IsToSend hall.old.moment c.number message) r.stalls.items j) hall.old.rooms.items i) hall.old.clients.items k }
    requires short { FitsLimit message }
    requires moment { hall.old.moment ≤ 2 ^ 62 }
    ensures rest { hall.new ≡ record hall.old { clients = hall.new.clients; rooms = hall.new.rooms; quiet_until = hall.new.quiet_until } }
    ensures clients { ChangesAt k (λ c. record c { message_count = counted c.message_count }) hall.old.clients.items hall.new.clients.items }
    ensures sound { (before : Holding) (old : Files) (faults : ℕ) → HoldsAt (λ c. HasDrawn F.tells_files i j c.number (next.Send message) old (F.files folder.old) faults (F.folder_faults folder.old) before hall.old → IsSound hall.new) hall.old.clients.items k }
    ensures told { IsTrue F.tells_files → (before : Holding) (old : Files) (faults : ℕ) → HoldsAt (λ c. HasDrawn F.tells_files i j c.number (next.Send message) old (F.files folder.old) faults (F.folder_faults folder.old) before hall.old → Carries before old hall.new (F.files folder.new) (λ s t. DoesSend s before.moment c.number message t)) hall.old.clients.items k }
    ensures keeps { (before : Holding) (old : Files) (faults : ℕ) → HoldsAt (λ c. HasDrawn F.tells_files i j c.number (next.Send message) old (F.files folder.old) faults (F.folder_faults folder.old) before hall.old → KeepsRooms before.moment before.rooms.items hall.new.rooms.items) hall.old.clients.items k }
    ensures files { (before : Holding) (old : Files) (faults : ℕ) → HoldsAt (λ c. HasDrawn F.tells_files i j c.number (next.Send message) old (F.files folder.old) faults (F.folder_faults folder.old) before hall.old → IsTrue F.tells_files → OnlyQueueFiles (F.files folder.old) (F.files folder.new)) hall.old.clients.items k }
    ensures faults { F.folder_faults folder.old ≤ F.folder_faults folder.new }
{
    let number = hall.clients[k].number();
    sent_at(hall, i, j, number, message, folder, steps);
    hall.settle_stall(i, j);
    hall.clients[k].receive();
}

// One call of the channel's.
fn draw_at<F: Folder>(
    hall: &mut Hall,
    i: usize,
    j: usize,
    number: u64,
    folder: &mut F,
    scratch: &mut [u8],
) -> Next
    requires sound { IsSound hall.old }
    requires room { i < length hall.old.rooms.items }
    requires stall { HoldsAt (λ r. j < length r.stalls.items) hall.old.rooms.items i }
    requires client { HoldsAt (λ r. HoldsAt (λ s. IsSome (client_of s.channel.clients number)) r.stalls.items j) hall.old.rooms.items i }
    requires scratch { 16777242 ≤ length scratch.old }
    ensures rest { hall.new ≡ record hall.old { rooms = hall.new.rooms } }
    ensures stall { AtStall i j (DrawsStall F.tells_files number hall.old.moment result (F.files folder.old) (F.files folder.new) (F.folder_faults folder.old) (F.folder_faults folder.new)) hall.old.rooms.items hall.new.rooms.items }
{
    let now = hall.moment;
    hall.rooms[i].stalls[j]
        .channel
        .next(folder, scratch, number, now)
}

// The copy is in flight.
fn sent_at<F: Folder, L: Ledger>(
    hall: &mut Hall,
    i: usize,
    j: usize,
    number: u64,
    message: Message,
    folder: &mut F,
    steps: &mut Steps<L>,
)
    requires room { i < length hall.old.rooms.items }
    requires stall { HoldsAt (λ r. j < length r.stalls.items) hall.old.rooms.items i }
    requires drawn { HoldsAt (λ r. HoldsAt (λ s. IsDrawnFor number message hall.old.moment s.channel.drawn) r.stalls.items j) hall.old.rooms.items i }
    requires client { HoldsAt (λ r. HoldsAt (λ s. IsSome (client_of s.channel.clients number)) r.stalls.items j) hall.old.rooms.items i }
    requires short { FitsLimit message }
    requires moment { hall.old.moment ≤ 2 ^ 62 }
    ensures rest { hall.new ≡ record hall.old { rooms = hall.new.rooms } }
    ensures stall { AtStall i j (SendsStall F.tells_files number hall.old.moment message (F.files folder.old) (F.files folder.new) (F.folder_faults folder.old) (F.folder_faults folder.new)) hall.old.rooms.items hall.new.rooms.items }
{
    let now = hall.moment;
    hall.rooms[i].stalls[j]
        .channel
        .sent(folder, number, message, now, steps);
}

/// The message that `draw` gave isn't sent: it is put back, with the attempts that it had, and the hall stands for what it stood for before. Requires the
/// places of that `draw`.
pub fn undo_sent(hall: &mut Hall, i: usize, j: usize, message: Message)
    requires room { i < length hall.old.rooms.items }
    requires stall { HoldsAt (λ r. j < length r.stalls.items) hall.old.rooms.items i }
    requires drawn { HoldsAt (λ r. HoldsAt (λ s. IsDrawnForSome message s.channel.drawn) r.stalls.items j) hall.old.rooms.items i }
    requires short { FitsLimit message }
    ensures rest { hall.new ≡ record hall.old { rooms = hall.new.rooms; quiet_until = hall.new.quiet_until } }
    ensures sound { (tells : Bool) (number : ℕ) (old now : Files) (before after : ℕ) (first : Holding) → HasDrawn tells i j number (next.Send message) old now before after first hall.old → IsSound hall.new }
    ensures told { (number : ℕ) (old now : Files) (before after : ℕ) (first : Holding) → HasDrawn true i j number (next.Send message) old now before after first hall.old → Carries first old hall.new now (λ s t. t ≡ s) }
    ensures keeps { (tells : Bool) (number : ℕ) (old now : Files) (before after : ℕ) (first : Holding) → HasDrawn tells i j number (next.Send message) old now before after first hall.old → KeepsRooms first.moment first.rooms.items hall.new.rooms.items }
{
    unsend_at(hall, i, j, message);
    hall.settle_stall(i, j);
}

// The copy is put back.
fn unsend_at(hall: &mut Hall, i: usize, j: usize, message: Message)
    requires room { i < length hall.old.rooms.items }
    requires stall { HoldsAt (λ r. j < length r.stalls.items) hall.old.rooms.items i }
    requires drawn { HoldsAt (λ r. HoldsAt (λ s. IsDrawnForSome message s.channel.drawn) r.stalls.items j) hall.old.rooms.items i }
    requires short { FitsLimit message }
    ensures rest { hall.new ≡ record hall.old { rooms = hall.new.rooms } }
    ensures stall { AtStall i j (UnsendsStall message) hall.old.rooms.items hall.new.rooms.items }
{
    hall.rooms[i].stalls[j].channel.unsend(message);
}
