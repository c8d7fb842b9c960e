ghost use Rattle.std.specs.Prelude.{◌≡◌, IfOk};

use crate::Memory;
use std::alloc::Global;
use std::marker::Model;

/// A message's body, or another text of bytes that is kept as it came.
#[derive(Drop)]
pub struct Body {
    bytes: Vec<u8>,
}

impl Model for Body {
    ghost use Rattle.std.specs.Prelude.{ℕ, List};

    ghost Value = { List ℕ };

    ghost view = { λ b. b.bytes.items };
}

impl Body {
    /// The body of these bytes. Takes no memory.
    pub fn of(bytes: Vec<u8>) -> Body
        ensures { result ≡ bytes.items }
    {
        Body { bytes }
    }

    /// A body of a copy of the bytes.
    pub fn copy(alloc: Global, bytes: &[u8]) -> Result<Body, Memory>
        ensures { IfOk result (λ body. body ≡ bytes.now) }
    {
        let bytes = Vec::from_slice(alloc, bytes)?;
        Ok(Body { bytes })
    }

    /// The body's bytes.
    pub fn bytes(&self) -> &[u8]
        ensures { result.now ≡ self.now }
    {
        self.bytes.as_slice()
    }

    /// The bytes, without a copy.
    pub fn spend(self) -> Vec<u8>
        ensures { result.items ≡ self }
    {
        self.bytes
    }
}
