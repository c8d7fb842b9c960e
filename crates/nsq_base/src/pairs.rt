ghost use Rattle.std.specs.Prelude.{◌≡◌, ◌<◌, [], ◌∷◌, ◌++◌, length, slice_get, Some, IfOk, OnOk, OnErr};

use crate::lists::put_last;
use crate::{Body, Memory};
use std::alloc::Global;
use std::marker::Model;

/// A name with a value, as a field of a request's head or of a query.
#[derive(Drop)]
pub struct Pair {
    /// The name's bytes.
    pub name: Body,
    /// The value's bytes.
    pub value: Body,
}

impl Pair {
    // A copy.
    fn copy(&self, alloc: Global) -> Result<Pair, Memory>
        ensures { IfOk result (λ pair. pair ≡ self.now) }
    {
        let name = Body::copy(alloc, self.name.bytes())?;
        let value = Body::copy(alloc, self.value.bytes())?;
        Ok(Pair { name, value })
    }
}

/// A list of pairs, in the order in which they were added.
#[derive(Drop)]
pub struct Pairs {
    items: Vec<Pair>,
}

impl Model for Pairs {
    ghost use Rattle.std.specs.Prelude.{List};
    ghost use Rattle.nsq_base.specs.declared.pairs.Pair.{Pair};

    ghost Value = { List Pair };

    ghost view = { λ p. p.items.items };
}

impl Pairs {
    /// The empty list. Takes no memory.
    pub fn new(alloc: Global) -> Pairs
        ensures { result ≡ [] }
    {
        Pairs {
            items: Vec::new(alloc),
        }
    }

    /// The list of these pairs. Takes no memory.
    pub fn of(items: Vec<Pair>) -> Pairs
        ensures { result ≡ items.items }
    {
        Pairs { items }
    }

    /// Adds a pair at the end. After Memory the list is as before, and the pair is dropped.
    pub fn push(&mut self, pair: Pair) -> Result<(), Memory>
        ensures ok { OnOk result (self.new ≡ self.old ++ pair ∷ []) }
        ensures err { OnErr result (self.new ≡ self.old) }
    {
        put_last(&mut self.items, pair)
    }

    /// How many pairs there are.
    pub fn count(&self) -> usize
        ensures { result ≡ length self.now }
    {
        self.items.len()
    }

    /// The pair at a place, counted from 0.
    pub fn get(&self, i: usize) -> &Pair
        requires { i < length self.now }
        ensures { slice_get self.now i ≡ Some result.now }
    {
        &self.items[i]
    }

    /// The pairs. Takes no memory.
    pub fn as_slice(&self) -> &[Pair]
        ensures { result.now ≡ self.now }
    {
        self.items.as_slice()
    }

    /// A list of copies.
    pub fn copy(&self, alloc: Global) -> Result<Pairs, Memory>
        ensures { IfOk result (λ pairs. pairs ≡ self.now) }
    {
        let mut items = Vec::with_capacity(alloc, self.items.len())?;
        for pair in &self.items {
            items.push_reserved(pair.copy(alloc)?);
        }
        Ok(Pairs { items })
    }

    /// The pairs, without a copy.
    pub fn spend(self) -> Vec<Pair>
        ensures { result.items ≡ self }
    {
        self.items
    }
}
