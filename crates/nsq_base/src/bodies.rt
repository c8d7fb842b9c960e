ghost use Rattle.std.specs.Prelude.{◌≡◌, ◌<◌, [], ◌∷◌, ◌++◌, length, slice_get, Some, IfOk, OnOk, OnErr};

use crate::lists::put_last;
use crate::{Body, Memory};
use std::alloc::Global;
use std::marker::Model;

/// A list of bodies, as that of a batch.
#[derive(Drop)]
pub struct Bodies {
    items: Vec<Body>,
}

impl Model for Bodies {
    ghost use Rattle.std.specs.Prelude.{ℕ, List};

    ghost Value = { List (List ℕ) };

    ghost view = { λ b. b.items.items };
}

impl Bodies {
    /// The empty list. Takes no memory.
    pub fn new(alloc: Global) -> Bodies
        ensures { result ≡ [] }
    {
        Bodies {
            items: Vec::new(alloc),
        }
    }

    /// The list of these bodies. Takes no memory.
    pub fn of(items: Vec<Body>) -> Bodies
        ensures { result ≡ items.items }
    {
        Bodies { items }
    }

    /// Adds a body at the end. After Memory the list is as before, and the body is dropped.
    pub fn push(&mut self, body: Body) -> Result<(), Memory>
        ensures ok { OnOk result (self.new ≡ self.old ++ body ∷ []) }
        ensures err { OnErr result (self.new ≡ self.old) }
    {
        put_last(&mut self.items, body)
    }

    /// How many bodies there are.
    pub fn count(&self) -> usize
        ensures { result ≡ length self.now }
    {
        self.items.len()
    }

    /// The body at a place, counted from 0.
    pub fn get(&self, i: usize) -> &Body
        requires { i < length self.now }
        ensures { slice_get self.now i ≡ Some result.now }
    {
        &self.items[i]
    }

    /// The bodies.
    pub fn as_slice(&self) -> &[Body]
        ensures { result.now ≡ self.now }
    {
        self.items.as_slice()
    }

    /// A list of copies.
    pub fn copy(&self, alloc: Global) -> Result<Bodies, Memory>
        ensures { IfOk result (λ bodies. bodies ≡ self.now) }
    {
        let mut items = Vec::with_capacity(alloc, self.items.len())?;
        for body in &self.items {
            items.push_reserved(Body::copy(alloc, body.bytes())?);
        }
        Ok(Bodies { items })
    }

    /// The bodies, without a copy.
    pub fn spend(self) -> Vec<Body>
        ensures { result.items ≡ self }
    {
        self.items
    }
}
