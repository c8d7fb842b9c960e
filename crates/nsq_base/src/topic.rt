ghost use Rattle.std.specs.Prelude.{◌≡◌, ◌↔◌, IsTrue, SomeIff};
ghost use Rattle.nsq_core.specs.Name.{IsEphemeral, IsName};

use crate::name::Name;
use std::marker::Model;

/// A topic's name: 1 or more bytes of `.a-zA-Z0-9_-`, then perhaps `#ephemeral`, together at most 64 bytes (nsq.io, TCP
/// Protocol Spec). Names are compared as byte strings.
#[derive(Clone, Copy, PartialEq, Eq, PartialOrd, Ord, Hash)]
pub struct Topic {
    name: Name,
}

impl Model for Topic {
    ghost use Rattle.std.specs.Prelude.{ℕ, List};
    ghost use Rattle.nsq_core.specs.Name.{IsName};

    ghost Value = { List ℕ };

    ghost view = { λ a. a.name };

    ghost invariant = { λ a. IsName a.name };

    ghost inverse = { λ bytes. record { name = bytes } };
}

impl Topic {
    /// The name that the bytes are, or None exactly where they are none.
    pub fn read(bytes: &[u8]) -> Option<Topic>
        ensures { SomeIff result (IsName bytes.now) bytes.now }
    {
        let name = Name::read(bytes)?;
        Some(Topic { name })
    }

    /// The name's bytes.
    pub fn bytes(&self) -> &[u8]
        ensures value { result.now ≡ self.now }
        ensures is_name { IsName result.now }
    {
        self.name.bytes()
    }

    /// The name as text: its bytes are all ASCII.
    pub fn as_str(&self) -> &str
        ensures { result.now ≡ self.now }
    {
        self.name.as_str()
    }

    /// Whether the name ends with `#ephemeral`: such a topic is never written to disk.
    pub fn ephemeral(&self) -> bool
        ensures { IsTrue result ↔ IsEphemeral self.now }
    {
        self.name.ephemeral()
    }

    // The name, without its being a topic's.
    pub(crate) fn name(&self) -> Name
        ensures value { result ≡ self.now }
        ensures is_name { IsName result }
    {
        self.name
    }
}
