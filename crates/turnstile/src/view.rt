use std::collections::LinkedList;

/// A pass that was joined to the first one: its number, and all that it had seen.
pub struct Joined<E> {
    /// Its number.
    pub number: u64,
    /// The entries that it had seen.
    pub seen: LinkedList<E>,
}

/// What a pass knows. No value of it is made.
pub struct View<E, P> {
    /// False once the pass was joined to the first one.
    pub is_live: bool,
    /// The number of the pass. The first pass, which the turnstile was made with, has the number 0.
    pub number: u64,
    /// The picture of the value with which the turnstile was made.
    pub root: Option<P>,
    /// The entries that it has seen.
    pub seen: LinkedList<E>,
    /// What it had seen earlier. The entries of its own in `seen` are those in here.
    pub earlier: LinkedList<E>,
    /// What the word is while this pass holds the turn: 1, or 2 once its entries are counted. 0 where it doesn't hold the turn.
    pub turn: u64,
    /// The list that the value had as this pass took it.
    pub taken: LinkedList<E>,
    /// Of the first pass, the numbers that passes have, its own among them.
    pub given: LinkedList<u64>,
    /// Of the first pass, the passes that were joined to it, in order.
    pub joined: LinkedList<Joined<E>>,
}
