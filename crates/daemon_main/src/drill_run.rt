ghost use Rattle.std.specs.List.{AllByRecursion};
ghost use Rattle.std.specs.Prelude.{◌≡◌, ◌≤◌, ◌^◌, ◌↔◌, IfOk, IfSome, IsSome, IsTrue};
ghost use Rattle.nsq_fakes.specs.MemHosts.{content_of, state_of};
ghost use Rattle.daemon_endings.specs.declared.serving.ServeEnd.TheVariants.{Clean};
ghost use Rattle.daemon_main.specs.Drills.{HasCounted, HasDrilled, HasNames, HasRunDrill, NeverFailed};
ghost use Rattle.nsq_fakes.specs.MemFolders.{faults_of, files_in};

use crate::{ServeEnd, serve};
use broker_history::Entry;
use drill_parts::{
    Publish, draw, drill_options, finished_in, host_of, left_in, published_in, sent_in,
};
use nsq_base::Memory;
use nsq_fakes::{MemConn, MemHost};
use std::alloc::Global;
use std::sync::Wait;

/// What a drill did.
#[derive(Drop)]
pub struct Drilled {
    /// The host in memory, as its run left it.
    pub host: MemHost<Entry>,
    /// How many messages were accepted.
    pub published: u64,
    /// How many messages were sent.
    pub sent: u64,
    /// How many FINs succeeded.
    pub finished: u64,
    /// How many messages an opening of the folder finds.
    pub left: u64,
}

/// Runs a drill: a host in memory, in which no call is to fail, is served from its start to its clean stop. Its callers are one that publishes so many messages,
/// drawn from the seed, to the topics `t0` to `t3`, and behind it a consumer of each topic, which finishes all that was published to it. The seed is at most
/// 2^59, and the count at most 100000.
///
/// Want of memory is the only error. Where a count of faults of the host, its folder or its connections rises, or its run doesn't end cleanly, memory was wanting.
pub fn drill<R: Wait>(rt: &R, alloc: Global, seed: u64, count: u64) -> Result<Drilled, Memory>
    requires seed { seed ≤ 2 ^ 59 }
    requires count { count ≤ 100000 }
    ensures { IfOk result (HasDrilled seed count) }
{
    let publishes = draw(alloc, seed, count as u32)?;
    let host = run(rt, alloc, &publishes)?;
    conclude(alloc, host)
}

// Serves a new host with the callers of these publishes.
fn run<R: Wait>(rt: &R, alloc: Global, publishes: &[Publish]) -> Result<MemHost<Entry>, Memory>
    ensures { IfOk result (HasRunDrill publishes.now) }
{
    let options = drill_options(alloc)?;
    let mut host = host_of(alloc, publishes)?;
    let ended = serve(rt, alloc, &options, &mut host);
    drop(options);
    if is_clean(ended) && has_no_fault(&host) {
        Ok(host)
    } else {
        drop(host);
        Err(Memory)
    }
}

// Whether a run ended cleanly.
fn is_clean(ended: ServeEnd) -> bool
    ensures { IsTrue result ↔ (ended ≡ Clean) }
{
    match ended {
        ServeEnd::Clean => true,
        _ => false,
    }
}

// Whether neither the folder nor the listeners of a host failed, nor a read or a write of a connection that it took back.
fn has_no_fault(host: &MemHost<Entry>) -> bool
    ensures accept { IsTrue result → (state_of host.now).accept_faults ≡ 0 }
    ensures folder { IsTrue result → IfSome (state_of host.now).kit (λ kit. faults_of kit.folder ≡ 0) }
    ensures back { IsTrue result → AllByRecursion NeverFailed (content_of host.now).back }
{
    match host.kit() {
        Some(kit) => {
            host.accept_faults() == 0 && kit.folder.faults() == 0 && never_failed(host.back())
        }
        None => false,
    }
}

// Whether no read and no write of these connections failed.
fn never_failed(back: &[(u64, MemConn)]) -> bool
    ensures { IsTrue result → AllByRecursion NeverFailed back.now }
{
    for entry in back {
        if !has_worked(entry) {
            return false;
        }
    }
    true
}

// Whether no read and no write of this connection failed.
fn has_worked(entry: &(u64, MemConn)) -> bool
    ensures { IsTrue result → NeverFailed entry.now }
{
    entry.1.read_faults() == 0 && entry.1.write_faults() == 0
}

// What a run left, counted.
fn conclude(alloc: Global, host: MemHost<Entry>) -> Result<Drilled, Memory>
    requires home { IsSome (state_of host).kit }
    requires names { IfSome (state_of host).kit HasNames }
    ensures host { IfOk result (λ drilled. drilled.host ≡ host) }
    ensures counts { IfOk result (λ drilled. IfSome (state_of host).kit (λ kit. HasCounted kit drilled)) }
{
    let Some(kit) = host.kit() else {
        unreachable!()
    };
    let Ok(left) = left_in(alloc, &kit.folder) else {
        drop(host);
        return Err(Memory);
    };
    let Some(left) = left else { unreachable!() };
    let entries = kit.journal.entries();
    let published = published_in(entries);
    let sent = sent_in(entries);
    let finished = finished_in(entries);
    Ok(Drilled {
        host,
        published,
        sent,
        finished,
        left,
    })
}
