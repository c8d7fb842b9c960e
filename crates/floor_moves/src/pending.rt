ghost use Rattle.std.specs.Prelude.{◌≡◌, ℕ, List, ◌∷◌, IfSome, None};
ghost use Rattle.nsq_outside.specs.Files.{Files};
ghost use Rattle.path_image.specs.Found.{Pairwise};
ghost use Rattle.broker_history.specs.State.{State};
ghost use Rattle.floor_rooms.specs.Sound.{IsSound};
ghost use Rattle.floor_rooms.specs.Standing.{HoldsFor};
ghost use Rattle.floor_moves.specs.Moves.{Keeps};
ghost use Rattle.floor_moves.specs.Pending.{IsBusyAt, IsFirstOf, IsRelisted, IsUnlisted, PendingFound, Unlists};

use floor_rooms::Hall;
use nsq_base::Topic;

/// A listed topic that has something to take or to pay; where there is none, none is listed any more. Topics that have nothing may be listed no more.
pub fn find_pending(hall: &mut Hall) -> Option<usize>
    requires { IsSound hall.old }
    ensures found { PendingFound hall.new result }
    ensures keeps { Keeps hall.old hall.new }
    ensures unlists { Unlists hall.old hall.new }
{
    while let Some(name) = first(hall) {
        let found = unlist(hall, name);
        if found.is_some() {
            return found;
        }
        drop_first(hall);
    }
    None
}

// The first name that is listed.
fn first(hall: &Hall) -> Option<Topic>
    ensures { IsFirstOf hall.now.pending.items result }
{
    match hall.pending.front() {
        Some(name) => Some(*name),
        None => None,
    }
}

// Where the topic of this name stands that has something to take or to pay. It isn't listed any more where it has nothing.
fn unlist(hall: &mut Hall, name: Topic) -> Option<usize>
    requires { IsSound hall.old }
    ensures busy { IfSome result (IsBusyAt hall.new.rooms.items) }
    ensures none { result ≡ None → IsUnlisted hall.new name }
    ensures rest { hall.new ≡ record hall.old { rooms = hall.new.rooms } }
    ensures rooms { Pairwise IsRelisted hall.old.rooms.items hall.new.rooms.items }
    ensures sound { IsSound hall.new }
    ensures stands { (files : Files) (s : State) → HoldsFor hall.old files s → HoldsFor hall.new files s }
{
    let Some(i) = hall.room_place(name) else {
        return None;
    };
    if !hall.rooms[i].rests() {
        return Some(i);
    }
    hall.rooms[i].listed = false;
    None
}

// Drops the first name that is listed, of a topic that isn't.
fn drop_first(hall: &mut Hall)
    requires sound { IsSound hall.old }
    requires unlisted { (name : List ℕ) (more : List (List ℕ)) → hall.old.pending.items ≡ name ∷ more → IsUnlisted hall.old name }
    ensures rest { hall.new ≡ record hall.old { pending = hall.new.pending } }
    ensures drops { (name : List ℕ) (more : List (List ℕ)) → hall.old.pending.items ≡ name ∷ more → hall.new.pending.items ≡ more }
    ensures sound { (name : List ℕ) (more : List (List ℕ)) → hall.old.pending.items ≡ name ∷ more → IsSound hall.new }
    ensures stands { (files : Files) (s : State) → HoldsFor hall.old files s → HoldsFor hall.new files s }
{
    let _ = hall.pending.pop_front();
}
