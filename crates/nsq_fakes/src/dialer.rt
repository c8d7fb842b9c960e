ghost use Rattle.std.specs.Prelude.{◌≡◌, ◌+◌, ◌<◌, ◌≤◌, ◌++◌, ◌∷◌, [], map, drop, length, slice_get, IsSomeAnd, vec_len, string_bytes, OnOk, OnErr};
ghost use Rattle.nsq_outside.specs.Hosts.{Dials, LinkFails, LinkCounts};
ghost use Rattle.nsq_fakes.specs.MemConns.{left_of, IsUnused, IsUnusedLink, IsRestarted, LinksFirst};

use crate::conn::MemConn;
use nsq_base::Memory;
use nsq_outside::{Dialled, Faults};
use std::alloc::Global;
use std::collections::VecDeque;

/// The connections that dials will give, and the addresses that were asked for.
#[derive(Drop)]
pub struct MemDialer {
    alloc: Global,
    coming: VecDeque<MemConn>,
    asked: Vec<String>,
    pub linked: Vec<String>,
    pub faults: Faults,
}

impl MemDialer {
    ghost use Rattle.nsq_fakes.specs.MemDialers.{dialled_of};

    pub(crate) fn new(alloc: Global, coming: Vec<MemConn>) -> MemDialer
        ensures dials { dialled_of result ≡ record { asked = []; linked = []; coming = map left_of coming.items } }
        ensures no_fault { result.faults.count ≡ 0 }
        ensures none_linked { vec_len result.linked ≡ 0 }
        ensures coming { result.coming.items ≡ coming.items }
    {
        MemDialer {
            alloc,
            coming: VecDeque::from(coming),
            asked: Vec::new(alloc),
            linked: Vec::new(alloc),
            faults: Faults::none(),
        }
    }

    /// The addresses that it was asked for. One for which it found no memory is missing.
    pub(crate) fn asked(&self) -> &[String]
        ensures { result.now ≡ self.now.asked.items }
    {
        &self.asked
    }

    /// Gives the next connection. Past the last one it fails, as for want of memory to keep the address.
    pub(crate) fn dial(&mut self, address: &str) -> Dialled<MemConn>
        ensures told { Dials left_of (dialled_of self.old) (dialled_of self.new) address.now result }
        ensures fresh { IsUnusedLink result }
        ensures faults { self.old.faults.count ≤ self.new.faults.count }
        ensures cause { LinkFails self.old.faults.count self.new.faults.count result }
        ensures counted { LinkCounts self.old.faults.count self.new.faults.count result }
        ensures one { vec_len self.new.linked ≤ vec_len self.old.linked + 1 }
        ensures first { LinksFirst self.old.coming.items self.new.coming.items result }
    {
        if keep(self.alloc, &mut self.asked, address).is_err() {
            self.faults.add();
            return Dialled::Failed;
        }
        if self.coming.is_empty() {
            self.faults.add();
            return Dialled::Failed;
        }
        if keep(self.alloc, &mut self.linked, address).is_err() {
            self.faults.add();
            return Dialled::Failed;
        }
        Dialled::Linked(first_of(&mut self.coming))
    }
}

/// Takes the first connection, restarted.
fn first_of(coming: &mut VecDeque<MemConn>) -> MemConn
    requires { 0 < length coming.old.items }
    ensures unused { IsUnused result }
    ensures left { map left_of coming.old.items ≡ left_of result ∷ map left_of coming.new.items }
    ensures first { IsSomeAnd (slice_get coming.old.items 0) (λ first. IsRestarted first result) }
    ensures rest { coming.new.items ≡ drop 1 coming.old.items }
{
    let Some(mut conn) = coming.pop_front() else {
        unreachable!()
    };
    conn.restart();
    conn
}

/// Appends a copy of a text.
fn keep(alloc: Global, texts: &mut Vec<String>, text: &str) -> Result<(), Memory>
    ensures ok { OnOk result (map string_bytes texts.new.items ≡ map string_bytes texts.old.items ++ text.now ∷ []) }
    ensures err { OnErr result (texts.new.items ≡ texts.old.items) }
    ensures one { vec_len texts.new ≤ vec_len texts.old + 1 }
{
    texts.reserve(1)?;
    texts.push_reserved(String::from_str(alloc, text)?);
    Ok(())
}
