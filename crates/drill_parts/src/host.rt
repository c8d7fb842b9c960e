ghost use Rattle.std.specs.Prelude.{◌≡◌, ℕ, List, IfOk, OnOk, map};
ghost use Rattle.nsq_base.specs.Options.{IsInRange};
ghost use Rattle.nsq_fakes.specs.declared.script.Piece.TheVariants.{Bytes};
ghost use Rattle.drill_parts.specs.Callers.{consumer, publisher, senders};
ghost use Rattle.drill_parts.specs.Hosts.{AddsSender, IsDrillHost, IsNewKit, Sends, drill_options};
ghost use Rattle.path_image.specs.Found.{Pairwise};

use crate::callers::{consumer, publisher};
use crate::draws::Publish;
use broker_history::Entry;
use nsq_base::{Memory, Options};
use nsq_fakes::{MemClock, MemConn, MemFolder, MemHost, MemJournal, Piece};
use nsq_outside::{Kind, Kit};
use std::alloc::Global;

/// The options of a drill: the defaults, but that 100 messages of a topic or a channel are kept in memory.
pub fn drill_options(alloc: Global) -> Result<Options, Memory>
    ensures value { IfOk result (λ options. options ≡ drill_options) }
    ensures in_range { IfOk result IsInRange }
{
    let mut options = Options::defaults(alloc)?;
    options.mem_queue_size = 100;
    Ok(options)
}

/// A host in memory as it is new, with the callers of a drill with these publishes.
pub fn host_of(alloc: Global, publishes: &[Publish]) -> Result<MemHost<Entry>, Memory>
    ensures { IfOk result (IsDrillHost publishes.now) }
{
    let callers = callers_of(alloc, publishes)?;
    let kit = new_kit(alloc)?;
    MemHost::new(alloc, callers, Vec::new(alloc), kit, false)
}

// A kit in memory as it is new: its folder is empty, and its clock shows 0.
fn new_kit(alloc: Global) -> Result<Kit<MemFolder, MemClock, MemJournal<Entry>>, Memory>
    ensures { IfOk result IsNewKit }
{
    let clock = MemClock::new(alloc, Vec::new(alloc))?;
    let folder = MemFolder::new(alloc, Vec::new(alloc), Vec::new(alloc))?;
    Ok(Kit {
        folder,
        clock,
        journal: MemJournal::new(alloc),
    })
}

// The callers of a drill: one that publishes, and one for each topic.
fn callers_of(alloc: Global, publishes: &[Publish]) -> Result<Vec<(Kind, MemConn)>, Memory>
    ensures { IfOk result (λ callers. Pairwise Sends (senders publishes.now) callers.items) }
{
    let mut callers = Vec::new(alloc);
    add_publisher(alloc, &mut callers, publishes)?;
    add_consumer(alloc, &mut callers, publishes, 0)?;
    add_consumer(alloc, &mut callers, publishes, 1)?;
    add_consumer(alloc, &mut callers, publishes, 2)?;
    add_consumer(alloc, &mut callers, publishes, 3)?;
    Ok(callers)
}

// Appends the caller that publishes.
fn add_publisher(
    alloc: Global,
    callers: &mut Vec<(Kind, MemConn)>,
    publishes: &[Publish],
) -> Result<(), Memory>
    ensures { OnOk result (AddsSender (publisher publishes.now) callers.old.items callers.new.items) }
{
    callers.reserve(1)?;
    let pieces = publisher(alloc, publishes)?;
    callers.push_reserved(caller_of(alloc, pieces)?);
    Ok(())
}

// Appends the consumer of a topic.
fn add_consumer(
    alloc: Global,
    callers: &mut Vec<(Kind, MemConn)>,
    publishes: &[Publish],
    topic: u8,
) -> Result<(), Memory>
    ensures { OnOk result (AddsSender (consumer publishes.now topic) callers.old.items callers.new.items) }
{
    callers.reserve(1)?;
    let pieces = consumer(alloc, publishes, topic)?;
    callers.push_reserved(caller_of(alloc, pieces)?);
    Ok(())
}

// A caller that sends these pieces.
fn caller_of(alloc: Global, pieces: Vec<Piece>) -> Result<(Kind, MemConn), Memory>
    ensures { IfOk result (λ caller. (sent : List (List ℕ)) → pieces.items ≡ map (λ piece. Bytes piece) sent → Sends sent caller) }
{
    let conn = MemConn::new(alloc, pieces, Vec::new(alloc), Vec::new(alloc))?;
    Ok((Kind::Tcp, conn))
}
