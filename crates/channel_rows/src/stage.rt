//! A channel that has two clients, in a folder, and its calls.

ghost use Rattle.std.specs.Prelude.{◌≡◌, ◌≤◌, ◌^◌, [], length, IfOk, IsSome, OnOk};
ghost use Rattle.backlog.specs.Seen.{FitsLimit};
ghost use Rattle.channel_copies.specs.Clients.{client_of};
ghost use Rattle.channel_core.specs.declared.drawn.Drawn.TheVariants as drawn;
ghost use Rattle.channel_core.specs.Drawing.{IsDrawnFor, IsHeldOf};
ghost use Rattle.channel_core.specs.Made.{FitsRun};
ghost use Rattle.channel_rows.specs.Served.{IsServed};

use crate::calls::{Answer, Call, Came, Does};
use crate::words::MOST;
use backlog::Flushed;
use channel_core::{Channel, DropChannel, Look, Moved, Next, Offer, Requeue};
use disk_queue::{Emptied, Sync};
use nsq_base::{Body, Chan, Memory, MsgId, Options, Steps, Topic};
use nsq_fakes::MemFolder;
use queue_opening::Open;
use std::alloc::Global;
use std::process::Abort;
use std::sync::ledger::Ledger;
use v2_frame::Message;

/// 60 s.
pub const MINUTE: u64 = 60_000_000_000;

/// How long the first client has for a message.
pub const FIRST_TIME: u64 = MINUTE;

/// How long the second client has for a message.
pub const SECOND_TIME: u64 = MINUTE / 2;

/// Room for the longest message.
#[derive(Drop)]
pub struct Scratch {
    pub bytes: Vec<u8>,
    ghost whole: { length bytes.items ≡ 16777242 },
}

impl Scratch {
    pub fn new(alloc: Global) -> Result<Scratch, Memory> {
        Ok(Scratch {
            bytes: vec![in alloc; 0; 16_777_242]?,
        })
    }
}

/// What a channel is made with.
#[derive(Drop)]
pub struct Setup {
    pub alloc: Global,
    pub topic: Topic,
    pub name: Chan,
    pub options: Options,
    ghost fits: { FitsRun options },
}

/// A channel of the topic `t` that has this name.
pub fn setup_of(rt: &impl Abort, alloc: Global, name: &[u8], options: Options) -> Setup
    requires { FitsRun options }
{
    Setup {
        alloc,
        topic: Topic::read(b"t").expect(rt, "a topic"),
        name: Chan::read(name).expect(rt, "a channel"),
        options,
    }
}

/// The default options, with room for so many queued copies in memory.
pub fn defaults(alloc: Global, memory: u64) -> Result<Options, Memory>
    ensures { IfOk result FitsRun }
{
    let mut options = Options::defaults(alloc)?;
    options.mem_queue_size = memory;
    Ok(options)
}

/// A channel with both clients, of which nothing is drawn, in a folder.
#[derive(Drop)]
pub struct Stage<L: Ledger> {
    pub setup: Setup,
    pub channel: Channel,
    pub folder: MemFolder,
    scratch: Scratch,
    steps: Steps<L>,
    ghost served: { IsServed channel },
}

/// A message of this id and letter, so many attempts of which were made.
pub fn message(
    alloc: Global,
    id: MsgId,
    letter: u8,
    attempts: u16,
    delay: u64,
) -> Result<Message, Memory>
    ensures short { IfOk result FitsLimit }
    ensures delay { IfOk result (λ m. m.delay ≡ delay) }
{
    Ok(Message {
        stamp: 7,
        attempts,
        id,
        body: Body::copy(alloc, &[letter])?,
        delay,
    })
}

// A channel whose two clients have asked for no message yet.
fn served(setup: &Setup) -> Result<Channel, Memory>
    ensures { IfOk result IsServed }
{
    let mut channel = Channel::fresh(setup.alloc, setup.topic, setup.name, &setup.options)?;
    match subscribe(&mut channel) {
        Ok(()) => Ok(channel),
        Err(Memory) => {
            let_go(channel);
            Err(Memory)
        }
    }
}

// Both clients subscribe.
fn subscribe(channel: &mut Channel) -> Result<(), Memory>
    requires nothing { channel.old.drawn ≡ drawn.Nothing }
    requires none { channel.old.clients ≡ [] }
    ensures { OnOk result (IsServed channel.new) }
{
    channel.subscribe(1, FIRST_TIME)?;
    channel.subscribe(2, SECOND_TIME)
}

fn let_go(_channel: Channel) {}

/// Ends all calls.
pub fn end<L: Ledger>(stage: Stage<L>) {
    let Stage {
        setup,
        channel,
        folder,
        scratch: _scratch,
        steps: _steps,
    } = stage;
    let_go(channel);
    let_setup_go(setup);
    let_folder_go(folder);
}

fn let_setup_go(_setup: Setup) {}

/// Takes a folder apart, once for all that held one.
pub fn let_folder_go(_folder: MemFolder) {}

/// How it begins.
impl<L: Ledger> Stage<L> {
    /// A new channel of this setup in this folder.
    pub fn new(
        setup: Setup,
        folder: MemFolder,
        scratch: Scratch,
        steps: Steps<L>,
    ) -> Result<Stage<L>, Memory> {
        match served(&setup) {
            Ok(channel) => Ok(Stage {
                setup,
                channel,
                folder,
                scratch,
                steps,
            }),
            Err(Memory) => Err(Memory),
        }
    }

    /// Such a channel takes the place of this one.
    pub fn renew(&mut self, setup: Setup, folder: MemFolder) -> Result<(), Memory> {
        let_setup_go(std::mem::replace(&mut self.setup, setup));
        let_folder_go(std::mem::replace(&mut self.folder, folder));
        match served(&self.setup) {
            Ok(fresh) => {
                put(&mut self.channel, fresh);
                Ok(())
            }
            Err(Memory) => Err(Memory),
        }
    }
}

/// The calls that move copies.
impl<L: Ledger> Stage<L> {
    /// Makes a call.
    pub fn call(&mut self, rt: &impl Abort, call: &Call) -> Answer {
        match call.does {
            Does::Offer => self.offer(call),
            Does::Give => self.give(call),
            Does::Finish | Does::Touch | Does::Requeue => self.settle(call),
            Does::Move => self.move_due(call.at),
            Does::Flush => Answer::of(self.flush()),
            _ => Answer::of(self.whole(rt, call)),
        }
    }

    // Offers a message.
    fn offer(&mut self, call: &Call) -> Answer {
        let delay = call.delay.min(MOST);
        match message(self.setup.alloc, call.id, call.letter, call.attempts, delay) {
            Ok(message) => self.join(message, call),
            Err(Memory) => Answer::of(Came::Wanting),
        }
    }

    fn join(&mut self, message: Message, call: &Call) -> Answer
        requires short { FitsLimit message }
        requires delay { message.delay ≤ 2 ^ 62 }
    {
        match self.channel.offer(
            &mut self.folder,
            &mut self.scratch.bytes,
            message,
            call.at.min(MOST),
            &mut self.steps,
        ) {
            Offer::Done => Answer::of(Came::Done),
            Offer::Fault(back) => came_back(Came::Fault, &back, call),
            Offer::Memory(back) => came_back(Came::Memory, &back, call),
        }
    }

    // Draws for a client. What is drawn is settled, or put back.
    fn give(&mut self, call: &Call) -> Answer {
        let client = call.who.client();
        let now = call.at.min(MOST);
        match self
            .channel
            .next(&mut self.folder, &mut self.scratch.bytes, client, now)
        {
            Next::Send(message) => {
                let answer = Answer::seen(Came::Sent, &message);
                end_sending(
                    &mut self.channel,
                    &mut self.folder,
                    client,
                    message,
                    now,
                    call.on,
                    &mut self.steps,
                );
                answer
            }
            Next::Held(id) => {
                end_holding(
                    &mut self.channel,
                    &mut self.folder,
                    id,
                    now,
                    call.on,
                    &mut self.steps,
                );
                Answer::about(Came::Held, id)
            }
            Next::NoCredit => Answer::of(Came::NoCredit),
            Next::Paused => Answer::of(Came::Paused),
            Next::NoneQueued => Answer::of(Came::NoneQueued),
            Next::Fault => Answer::of(Came::Fault),
            Next::Memory => Answer::of(Came::Memory),
            Next::Damaged => Answer::of(Came::Odd),
        }
    }

    // Where the copy is the client's, it is finished, gets more time or is given back.
    fn settle(&mut self, call: &Call) -> Answer {
        let client = call.who.client();
        match self.channel.look(client, call.id) {
            Look::Yours => match call.does {
                Does::Finish => {
                    self.channel.finish(client, call.id, &mut self.steps);
                    Answer::of(Came::Done)
                }
                Does::Touch => {
                    self.channel
                        .touch(client, call.id, call.at.min(MOST), &mut self.steps);
                    Answer::of(Came::Done)
                }
                _ => Answer::of(requeued(
                    self.channel.requeue(
                        &mut self.folder,
                        &mut self.scratch.bytes,
                        client,
                        call.id,
                        call.delay.min(MOST),
                        call.at.min(MOST),
                        &mut self.steps,
                    ),
                )),
            },
            Look::NotYours | Look::NotInFlight => Answer::of(Came::NotYours),
        }
    }

    // Puts back what is due first.
    fn move_due(&mut self, now: u64) -> Answer {
        let told = self.channel.due(now);
        let moved = self.channel.move_due(
            &mut self.folder,
            &mut self.scratch.bytes,
            now,
            &mut self.steps,
        );
        moved_as(moved, told)
    }

    // Writes all copies to disk.
    fn flush(&mut self) -> Came {
        match self
            .channel
            .flush(&mut self.folder, &mut self.scratch.bytes, &mut self.steps)
        {
            Flushed::Done => Came::Done,
            Flushed::Fault => Came::Fault,
        }
    }
}

/// The calls that move no single copy.
impl<L: Ledger> Stage<L> {
    fn whole(&mut self, rt: &impl Abort, call: &Call) -> Came {
        match call.does {
            Does::Ready => {
                self.channel.ready(call.who.client(), call.count);
                Came::Done
            }
            Does::Pause => {
                self.channel.pause(call.on);
                paused_as(self.channel.is_paused() == call.on)
            }
            Does::ComeAgain => {
                come_again(rt, &mut self.channel);
                Came::Done
            }
            Does::Sync => saved(self.channel.sync(&mut self.folder)),
            Does::Empty => emptied(self.channel.empty(&mut self.folder)),
            Does::Delete => self.delete(rt),
            Does::Open => self.open(rt),
            _ => Came::Odd,
        }
    }

    // Deletes the channel, and makes it anew. Where the folder fails the channel stays.
    fn delete(&mut self, rt: &impl Abort) -> Came {
        let fresh = served(&self.setup).expect(rt, "memory");
        delete(&mut self.channel, &mut self.folder, fresh)
    }

    // Puts an opened channel in the place of this one, with both clients.
    fn replace(&mut self, rt: &impl Abort, opened: Channel)
        requires nothing { opened.drawn ≡ drawn.Nothing }
        requires none { opened.clients ≡ [] }
    {
        let mut opened = opened;
        subscribe(&mut opened).expect(rt, "memory");
        put(&mut self.channel, opened);
    }

    // Opens the channel in place of this one, where its queue can be read.
    fn open(&mut self, rt: &impl Abort) -> Came {
        match Channel::open(
            self.setup.alloc,
            &mut self.folder,
            self.setup.topic,
            self.setup.name,
            &self.setup.options,
        ) {
            Ok(opened) => {
                self.replace(rt, opened);
                Came::Done
            }
            Err(Open::Memory) => panic!(rt; "memory"),
            Err(Open::Fault) => Came::Fault,
            Err(Open::BadMeta) => Came::BadMeta,
        }
    }
}

/// The same where calls of the folder fail, time and again.
impl<L: Ledger> Stage<L> {
    /// Whether the channel is opened; a fault may keep that off, and then it is tried again.
    pub fn reopen(&mut self, rt: &impl Abort, fails: bool) -> bool {
        for _ in 0..100 {
            match self.open(rt) {
                Came::Done => return true,
                Came::Fault if fails => {}
                _ => return false,
            }
        }
        false
    }

    /// Whether the channel is deleted and made anew. Where the folder fails, that is tried again.
    pub fn make_anew(&mut self, rt: &impl Abort) -> bool {
        for _ in 0..100 {
            if matches!(self.delete(rt), Came::Done) {
                return true;
            }
        }
        false
    }
}

fn requeued(answer: Requeue) -> Came {
    match answer {
        Requeue::Done => Came::Done,
        Requeue::Fault => Came::Fault,
    }
}

fn paused_as(so: bool) -> Came {
    if so { Came::Done } else { Came::Odd }
}

fn saved(answer: Sync) -> Came {
    match answer {
        Sync::NotDue => Came::NotDue,
        Sync::Done => Came::Done,
        Sync::Failed => Came::Fault,
    }
}

fn emptied(answer: Emptied) -> Came {
    match answer {
        Emptied::Done => Came::Done,
        Emptied::Fault => Came::Fault,
    }
}

// The second client leaves, and subscribes again.
fn come_again(rt: &impl Abort, channel: &mut Channel)
    requires { IsServed channel.old }
    ensures { IsServed channel.new }
{
    channel.leave(2);
    channel.subscribe(2, SECOND_TIME).expect(rt, "memory");
}

// What was drawn to be sent is sent, or put back.
fn end_sending<L: Ledger>(
    channel: &mut Channel,
    folder: &mut MemFolder,
    client: u64,
    message: Message,
    now: u64,
    settles: bool,
    steps: &mut Steps<L>,
)
    requires drawn { IsDrawnFor client message now channel.old.drawn }
    requires client { IsSome (client_of channel.old.clients client) }
    requires short { FitsLimit message }
    requires now { now ≤ 2 ^ 62 }
    ensures settled { channel.new.drawn ≡ drawn.Nothing }
    ensures clients { channel.new.clients ≡ channel.old.clients }
{
    match settles {
        true => channel.sent(folder, client, message, now, steps),
        false => channel.unsend(message),
    }
}

// What was drawn to be held back is, or it is put back.
fn end_holding<L: Ledger>(
    channel: &mut Channel,
    folder: &mut MemFolder,
    id: MsgId,
    now: u64,
    settles: bool,
    steps: &mut Steps<L>,
)
    requires drawn { IsHeldOf id now channel.old.drawn }
    requires now { now ≤ 2 ^ 62 }
    ensures settled { channel.new.drawn ≡ drawn.Nothing }
    ensures clients { channel.new.clients ≡ channel.old.clients }
{
    match settles {
        true => channel.settle_held(folder, now, steps),
        false => channel.undo_held(),
    }
}

// The answer of an offer whose message comes back: one that isn't as it was offered is odd.
fn came_back(came: Came, back: &Message, call: &Call) -> Answer {
    let answer = Answer::seen(came, back);
    if answer.copy.id != call.id || answer.copy.delay != call.delay {
        return Answer::of(Came::Odd);
    }
    answer
}

// Deletes the channel, and has a fresh one in its place. Where the folder fails it stays.
fn delete(channel: &mut Channel, folder: &mut MemFolder, fresh: Channel) -> Came
    requires old { IsServed channel.old }
    requires fresh { IsServed fresh }
    ensures { IsServed channel.new }
{
    let old = std::mem::replace(channel, fresh);
    match old.delete(folder) {
        DropChannel::Done => Came::Done,
        DropChannel::Fault(back) => {
            put(channel, back);
            Came::Fault
        }
    }
}

// Puts a channel in the place of another.
fn put(channel: &mut Channel, new: Channel)
    ensures { channel.new ≡ new }
{
    let_go(std::mem::replace(channel, new));
}

// What moved, or could not; it is odd where it isn't what was told.
fn moved_as(moved: Moved, told: Option<(MsgId, bool)>) -> Answer {
    let Some((first, flies)) = told else {
        return Answer::of(nothing_as(moved));
    };
    let (came, id) = match moved {
        Moved::TimedOut(id) if flies => (Came::TimedOut, id),
        Moved::CameDue(id) if !flies => (Came::CameDue, id),
        Moved::Fault(id) => (Came::Stays, id),
        _ => return Answer::of(Came::Odd),
    };
    if id == first {
        Answer::about(came, id)
    } else {
        Answer::of(Came::Odd)
    }
}

fn nothing_as(moved: Moved) -> Came {
    match moved {
        Moved::Nothing => Came::Nothing,
        _ => Came::Odd,
    }
}
