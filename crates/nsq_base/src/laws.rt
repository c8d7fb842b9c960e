ghost use Rattle.std.specs.Prelude.{◌≡◌, ℕ, List, nat_eq};
ghost use Rattle.std.specs.Cmp.Lexicographic.{pointwise};
ghost use Rattle.std.specs.Hash as fed;
ghost use Rattle.nsq_base.specs.Names.{byte_order};
ghost use Rattle.nsq_base.specs.MsgId.{IdsDiffer};

use crate::{Chan, MsgId, Topic};
use std::hash::Hash;

/// Two messages of different epochs or numbers have different ids. A law, with nothing to run.
pub fn ids_differ()
    ensures { IdsDiffer }
{}

/// Topics, channels and ids are ordered as their bytes, a name before each that it begins: so a map or a sort over them is
/// in byte order. A law, with nothing to run.
pub fn names_are_in_byte_order()
    ensures topics { (a b : List ℕ) → ⟦<Topic as Ord>⟧.cmp a b ≡ byte_order a b }
    ensures channels { (a b : List ℕ) → ⟦<Chan as Ord>⟧.cmp a b ≡ byte_order a b }
    ensures ids { (a b : List ℕ) → ⟦<MsgId as Ord>⟧.cmp a b ≡ byte_order a b }
{}

/// Topics, channels and ids are equal exactly where their bytes are, and are hashed as their bytes. A law, with nothing to
/// run.
pub fn names_are_their_bytes()
    ensures topics { (a b : List ℕ) → ⟦<Topic as PartialEq>⟧.eq a b ≡ pointwise nat_eq a b }
    ensures channels { (a b : List ℕ) → ⟦<Chan as PartialEq>⟧.eq a b ≡ pointwise nat_eq a b }
    ensures ids { (a b : List ℕ) → ⟦<MsgId as PartialEq>⟧.eq a b ≡ pointwise nat_eq a b }
    ensures topics_hash { (a : List ℕ) → ⟦<Topic as Hash>⟧.hash_input a ≡ fed.slice fed.u8 a }
    ensures channels_hash { (a : List ℕ) → ⟦<Chan as Hash>⟧.hash_input a ≡ fed.slice fed.u8 a }
    ensures ids_hash { (a : List ℕ) → ⟦<MsgId as Hash>⟧.hash_input a ≡ fed.slice fed.u8 a }
{}
