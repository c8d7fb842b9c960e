ghost use Rattle.std.specs.Prelude.{◌≡◌, ◌≢◌, ℕ, ◌+◌, ◌*◌, ◌<◌, ◌≤◌, ◌^◌, length};
ghost use Rattle.std.specs.Bool.{MatchBool};
ghost use Rattle.due_heap.specs.Layout.{node_at, place_of, node_of, NotAfter, Matched, IsHeap, IsHeapBut, AboveChildren, BelowParent, Exchanged, Moved, FewSwaps, Attached, Detached};
ghost use Rattle.due_heap.specs.Heap.{FewSteps};

use crate::node::Node;
use nsq_base::Steps;
use std::sync::ledger::Ledger;

// Whether a comes before b.
fn is_before(a: Node, b: Node) -> bool
    ensures { MatchBool result (NotAfter a b) (NotAfter b a) }
{
    if a.due != b.due {
        return a.due < b.due;
    }
    if a.number != b.number {
        return a.number < b.number;
    }
    a.slot < b.slot
}

// Exchanges the nodes at two places, which the caller has read. It moves two items.
fn exchange<L: Ledger>(
    order: &mut [Node],
    places: &mut [usize],
    i: usize,
    from_i: Node,
    j: usize,
    from_j: Node,
    steps: &mut Steps<L>,
)
    requires matched { Matched order.old places.old }
    requires i_in { i < length order.old }
    requires j_in { j < length order.old }
    requires at_i { from_i ≡ node_at order.old i }
    requires at_j { from_j ≡ node_at order.old j }
    ensures exchanged { Exchanged order.old order.new i j }
    ensures matched { Matched order.new places.new }
    ensures moved { (n : ℕ) → i < n → j < n → Moved n order.old places.old order.new places.new }
    ensures steps { steps.new ≡ steps.old + 2 }
{
    order[i] = from_j;
    order[j] = from_i;
    places[from_j.slot] = i;
    places[from_i.slot] = j;
    steps.tick();
    steps.tick();
}

// Lets the node at `start` rise to where its parent isn't after it.
fn rise<L: Ledger>(
    order: &mut [Node],
    places: &mut [usize],
    n: usize,
    start: usize,
    steps: &mut Steps<L>,
)
    requires matched { Matched order.old places.old }
    requires in_range { start < n }
    requires within { n ≤ length order.old }
    requires but { IsHeapBut order.old n start }
    requires above { AboveChildren order.old n start start }
    ensures matched { Matched order.new places.new }
    ensures heap { IsHeap order.new n }
    ensures moved { Moved n order.old places.old order.new places.new }
    ensures steps { FewSwaps n steps.old steps.new }
{
    let node = order[start];
    let mut j = start;
    while j > 0 {
        let parent = (j - 1) / 2;
        let above = order[parent];
        if !is_before(node, above) {
            return;
        }
        exchange(order, places, parent, above, j, node, steps);
        j = parent;
    }
}

// The child of j that isn't after the other.
fn first_child(order: &[Node], n: usize, j: usize) -> usize
    requires child { j * 2 + 1 < n }
    requires within { n ≤ length order.now }
    ensures from { j * 2 + 1 ≤ result }
    ensures to { result ≤ j * 2 + 2 }
    ensures in_range { result < n }
    ensures first { AboveChildren order.now n j result }
{
    let left = j * 2 + 1;
    let right = left + 1;
    if right == n {
        return left;
    }
    if is_before(order[right], order[left]) {
        right
    } else {
        left
    }
}

// Lets the node at `start` sink to where no child is before it.
fn sink<L: Ledger>(
    order: &mut [Node],
    places: &mut [usize],
    n: usize,
    start: usize,
    steps: &mut Steps<L>,
)
    requires matched { Matched order.old places.old }
    requires in_range { start < n }
    requires within { n ≤ length order.old }
    requires but { IsHeapBut order.old n start }
    requires below { BelowParent order.old start }
    ensures matched { Matched order.new places.new }
    ensures heap { IsHeap order.new n }
    ensures moved { Moved n order.old places.old order.new places.new }
    ensures steps { FewSwaps n steps.old steps.new }
{
    let node = order[start];
    let mut j = start;
    while j < n / 2 {
        let child = first_child(order, n, j);
        let below = order[child];
        if !is_before(below, node) {
            return;
        }
        exchange(order, places, j, node, child, below, steps);
        j = child;
    }
}

// Lets the node at j rise or sink to its place.
fn settle<L: Ledger>(
    order: &mut [Node],
    places: &mut [usize],
    n: usize,
    j: usize,
    steps: &mut Steps<L>,
)
    requires matched { Matched order.old places.old }
    requires in_range { j < n }
    requires within { n ≤ length order.old }
    requires but { IsHeapBut order.old n j }
    ensures matched { Matched order.new places.new }
    ensures heap { IsHeap order.new n }
    ensures moved { Moved n order.old places.old order.new places.new }
    ensures steps { FewSwaps n steps.old steps.new }
{
    if j > 0 && is_before(order[j], order[(j - 1) / 2]) {
        rise(order, places, n, j, steps);
    } else {
        sink(order, places, n, j, steps);
    }
}

// Puts the node of a new item at the end of a heap of `place` nodes. Its slot is the free one that stands there.
pub(crate) fn attach<L: Ledger>(
    order: &mut [Node],
    places: &mut [usize],
    place: usize,
    node: Node,
    steps: &mut Steps<L>,
)
    requires matched { Matched order.old places.old }
    requires in_range { place < length order.old }
    requires heap { IsHeap order.old place }
    requires slot { node.slot ≡ (node_at order.old place).slot }
    ensures matched { Matched order.new places.new }
    ensures heap { IsHeap order.new (place + 1) }
    ensures attached { Attached place node.slot node.due node.number order.old places.old order.new places.new }
    ensures steps { FewSteps place steps.old steps.new }
{
    order[place] = node;
    steps.tick();
    rise(order, places, place + 1, place, steps);
}

// Takes the node at a place out of a heap of one more than `last`: its slot is then free.
pub(crate) fn detach<L: Ledger>(
    order: &mut [Node],
    places: &mut [usize],
    last: usize,
    place: usize,
    steps: &mut Steps<L>,
)
    requires matched { Matched order.old places.old }
    requires in_range { place ≤ last }
    requires within { last < length order.old }
    requires heap { IsHeap order.old (last + 1) }
    ensures matched { Matched order.new places.new }
    ensures heap { IsHeap order.new last }
    ensures detached { Detached last (node_at order.old place).slot order.old places.old order.new places.new }
    ensures steps { FewSteps (last + 1) steps.old steps.new }
{
    if place == last {
        return;
    }
    let gone = order[place];
    let moved = order[last];
    exchange(order, places, place, gone, last, moved, steps);
    settle(order, places, last, place, steps);
}
