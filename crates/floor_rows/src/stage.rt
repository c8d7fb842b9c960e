//! A floor in memory with all that rows see of it: its folder's files, its clock, what was done at it, and what it left.

ghost use Rattle.std.specs.Prelude.{◌≡◌, false};
ghost use Rattle.nsq_base.specs.Options.{IsInRange};
ghost use Rattle.broker_floor.specs.Floors.{flushed_of};
ghost use Rattle.broker_history.specs.Calls.{CanCall};

use crate::answers::put_answer;
use crate::calls::call_of;
use crate::done::Done;
use crate::files::{files_in, folder_of};
use crate::judged::Run;
use crate::outside::{Counted, Dials, MemKit, Shown, kit_of};
use crate::settings::{DEFAULTS, Setting, options_of};
use crate::texts::{
    halves, parted, put, put_flag, put_line, put_names, put_number, put_word, same,
};
use backlog::Flushed;
use broker_floor::{Floor, Refused, Saved, ShutEnd, Why, open, save, shut};
use broker_history::{Call, Entry, Turned};
use names_file::{KeptChannel, KeptTopic};
use nsq_base::Options;
use nsq_fakes::{Failing, MemFolder};
use nsq_outside::End;
use path_plain::NamedFile;
use std::alloc::Global;
use std::mem;
use std::process::Abort;

// What a turn answers that lacked memory.
const WANTING: &[u8] = b"memory";

// The latest moment.
const LATEST: u64 = 1 << 62;

// A floor in memory.
type MemFloor<'a> = Floor<MemFolder, Shown<'a>, Counted<'a>>;

// A floor that takes turns. It's ended and not dropped: a floor's drop is that of all its parts, each proved here once more.
struct Bench<'a> {
    floor: MemFloor<'a>,
    ghost open: { flushed_of floor ≡ false },
}

impl<'a> Bench<'a> {
    fn turn(&mut self, alloc: Global, number: u64, call: Call) -> Turned
        requires { CanCall call }
    {
        self.floor.turn(alloc, number, call)
    }

    // Tells what another call than a turn answers. Whether there is such a call.
    fn put_told(&mut self, rt: &impl Abort, alloc: Global, told: &mut Vec<u8>, call: &str) -> bool {
        match call {
            "changed" => put(rt, told, yes_or_no(self.floor.changed())),
            "save" => put(rt, told, saved_word(save(alloc, &mut self.floor))),
            "saved" => {
                self.floor.saved();
                put(rt, told, b"done");
            }
            "kept" => self.put_kept(rt, alloc, told),
            "names" => self.put_names(rt, alloc, told),
            "epoch" => put_number(rt, told, u128::from(self.floor.epoch())),
            "began" => put_number(rt, told, u128::from(self.floor.began())),
            _ => return false,
        }
        true
    }

    fn put_kept(&self, rt: &impl Abort, alloc: Global, told: &mut Vec<u8>) {
        let kept = self.floor.kept(alloc).expect(rt, "memory");
        put_kept(rt, told, &kept);
    }

    fn put_names(&self, rt: &impl Abort, alloc: Global, told: &mut Vec<u8>) {
        let names = self.floor.names(alloc).expect(rt, "memory");
        put(rt, told, b"names");
        put_names(rt, told, &names);
    }

    // Ends it so; how that ended, and what it left.
    fn end(self, alloc: Global, how: &str) -> (&'static [u8], MemKit<'a>) {
        let Bench { floor } = self;
        match how {
            "shut" => {
                let (end, kit) = shut(alloc, floor);
                (shut_word(end), kit)
            }
            "flush" => flush(floor),
            _ => (b"left", kit_left(floor)),
        }
    }
}

// Lets go of a floor.
fn let_bench_go(bench: Option<Bench<'_>>) {
    if let Some(Bench { floor }) = bench {
        drop(kit_left(floor));
    }
}

// What a floor leaves.
fn kit_left<'a>(floor: MemFloor<'a>) -> MemKit<'a> {
    floor.end()
}

// Writes what is in memory.
fn flush<'a>(mut floor: MemFloor<'a>) -> (&'static [u8], MemKit<'a>)
    requires { flushed_of floor ≡ false }
{
    let flushed: &'static [u8] = match floor.flush() {
        Flushed::Done => b"done",
        Flushed::Fault => b"fault",
    };
    (flushed, kit_left(floor))
}

// Takes a turn's answer apart.
fn let_turned_go(_turned: Turned) {}

fn yes_or_no(flag: bool) -> &'static [u8] {
    if flag { b"yes" } else { b"no" }
}

fn saved_word(saved: Saved) -> &'static [u8] {
    match saved {
        Saved::Done => b"done",
        Saved::Fault => b"fault",
        Saved::Memory => b"memory",
    }
}

fn shut_word(end: ShutEnd) -> &'static [u8] {
    match end {
        ShutEnd::Clean => b"clean",
        ShutEnd::Fault => b"fault",
        ShutEnd::Memory => b"memory",
    }
}

fn why_word(why: Why) -> &'static str {
    match why {
        Why::BadData => "bad-data",
        Why::EpochSpent => "epoch-spent",
        Why::Fault => "fault",
        Why::Memory => "memory",
    }
}

// Topics with their channels, each with its pause.
fn put_kept(rt: &impl Abort, out: &mut Vec<u8>, kept: &[KeptTopic]) {
    put(rt, out, b"kept");
    for topic in kept {
        put_word(rt, out, topic.topic.bytes());
        put_flag(rt, out, b"paused", topic.paused);
        put(rt, out, b" [");
        put_kept_channels(rt, out, &topic.channels);
        put(rt, out, b" ]");
    }
}

fn put_kept_channels(rt: &impl Abort, out: &mut Vec<u8>, channels: &[KeptChannel]) {
    for channel in channels {
        put_word(rt, out, channel.channel.bytes());
        put_flag(rt, out, b"paused", channel.paused);
    }
}

/// Where runs are made, one after another. It's closed and not dropped.
pub struct Stage<'a> {
    pub alloc: Global,
    pub dials: &'a Dials,
    /// The options of the next run.
    pub setting: Setting,
    /// Which calls of its folder fail.
    pub fails: Vec<Failing>,
    /// The files with which it begins.
    pub files: Vec<NamedFile>,
    /// What was done in it.
    pub done: Vec<Done>,
    /// Whether it opened its files; else it is a floor of epoch 1.
    pub opened: bool,
    /// What differs from what is wanted, as text.
    pub wrong: Vec<u8>,
    bench: Option<Bench<'a>>,
    left: Option<MemKit<'a>>,
    // Its first moment, and the greatest reading so far.
    began: u64,
    moment: u64,
}

impl<'a> Stage<'a> {
    /// An empty folder.
    pub fn new(alloc: Global, dials: &'a Dials) -> Stage<'a> {
        dials.show(0);
        Stage {
            alloc,
            dials,
            setting: DEFAULTS,
            fails: Vec::new(alloc),
            files: Vec::new(alloc),
            done: Vec::new(alloc),
            opened: false,
            wrong: Vec::new(alloc),
            bench: None,
            left: None,
            began: 0,
            moment: 0,
        }
    }

    /// All is as it was at first.
    pub fn clear(&mut self) {
        let fresh = Stage::new(self.alloc, self.dials);
        mem::replace(self, fresh).close();
    }

    /// Lets go of all of it.
    pub fn close(self) {
        let Stage {
            alloc: _,
            dials: _,
            setting: _,
            fails,
            files,
            done,
            opened: _,
            wrong,
            bench,
            left,
            began: _,
            moment: _,
        } = self;
        drop(fails);
        drop(files);
        drop(done);
        drop(wrong);
        let_bench_go(bench);
        drop(left);
    }

    // A run is made at this floor.
    fn run_at(&mut self, floor: MemFloor<'a>)
        requires { flushed_of floor ≡ false }
    {
        let_bench_go(mem::replace(&mut self.bench, Some(Bench { floor })));
    }

    // A run left this.
    fn keep_left(&mut self, kit: MemKit<'a>) {
        drop(mem::replace(&mut self.left, Some(kit)));
    }

    /// Something differs.
    pub fn tell(&mut self, rt: &impl Abort, line: &str, what: &[u8]) {
        put_line(rt, &mut self.wrong, line, what);
    }

    /// Begins a run at a floor of epoch 1.
    pub fn begin(&mut self, rt: &impl Abort, options: &Options)
        requires { IsInRange options.now }
    {
        let kit = kit_of(self.alloc, self.folder(rt), self.dials);
        match Floor::new(self.alloc, kit, options, 1) {
            Ok(floor) => self.run_at(floor),
            Err(_) => panic!(rt; "memory"),
        }
    }

    /// Begins a run that opens the files. Why that is refused, if it is.
    pub fn open(&mut self, rt: &impl Abort) -> &'static str {
        let options = options_of(rt, self.alloc, &self.setting);
        let kit = kit_of(self.alloc, self.folder(rt), self.dials);
        self.opened = true;
        self.done.clear();
        self.moment = 0;
        let opened = open(self.alloc, kit, &options);
        drop(options);
        match opened {
            Ok(floor) => {
                self.began = floor.began();
                self.run_at(floor);
                ""
            }
            Err(Refused { why, kit }) => {
                self.keep_left(kit);
                why_word(why)
            }
        }
    }

    fn folder(&self, rt: &impl Abort) -> MemFolder {
        folder_of(rt, self.alloc, &self.files, &self.fails)
    }

    /// Whether a run is being made.
    pub fn is_open(&self) -> bool {
        self.bench.is_some()
    }

    /// Makes the call that a line says in front of its arrow. Whether it is one.
    pub fn call(&mut self, rt: &impl Abort, line: &str) -> bool {
        self.be_open(rt);
        let (call, _) = halves(line, " => ");
        let before = self.dials.noted();
        let mut answer = Vec::new(self.alloc);
        if !self.put_answered(rt, &mut answer, call) {
            return false;
        }
        let between = self.dials.noted();
        // Where memory was wanting, it is made once more.
        if same(&answer, WANTING) {
            answer.clear();
            self.put_answered(rt, &mut answer, call);
        }
        self.keep(rt, line, answer, before, between);
        true
    }

    /// The clock shows this moment from now on.
    pub fn show(&mut self, rt: &impl Abort, reading: u64) {
        self.be_open(rt);
        self.dials.show(reading);
    }

    // Where no run was made before, a floor of epoch 1 begins, at the moment 0.
    fn be_open(&mut self, rt: &impl Abort) {
        if !self.is_open() && self.left.is_none() {
            let options = options_of(rt, self.alloc, &self.setting);
            self.begin(rt, &options);
            drop(options);
        }
    }

    // Tells what a call answers: a turn has a number. Whether it is one.
    fn put_answered(&mut self, rt: &impl Abort, told: &mut Vec<u8>, call: &str) -> bool {
        let (word, text) = parted(call);
        match word.parse::<u64>() {
            Ok(number) => self.put_turned(rt, told, number, text),
            Err(_) => match &mut self.bench {
                Some(bench) => bench.put_told(rt, self.alloc, told, call),
                None => false,
            },
        }
    }

    fn put_turned(&mut self, rt: &impl Abort, told: &mut Vec<u8>, number: u64, text: &str) -> bool {
        let Some(bench) = &mut self.bench else {
            return false;
        };
        let Some(call) = call_of(rt, self.alloc, text) else {
            return false;
        };
        self.moment = self.moment.max(self.dials.reading().min(LATEST));
        let answer = bench.turn(self.alloc, number, call);
        put_answer(rt, self.alloc, told, &answer, !self.opened);
        let_turned_go(answer);
        true
    }

    // Keeps what a call did: how many entries were noted before it, and behind the moves of a turn that was made once more.
    fn keep(
        &mut self,
        rt: &impl Abort,
        line: &str,
        answer: Vec<u8>,
        before: usize,
        between: usize,
    ) {
        let done = Done {
            line: String::from_str(self.alloc, line).expect(rt, "memory"),
            at: self.moment,
            answer,
            before,
            between,
            after: self.dials.noted(),
        };
        self.done.push(done).expect(rt, "memory");
    }

    /// What the last call was answered.
    pub fn answer(&self) -> &[u8] {
        match self.done.last() {
            Some(done) => &done.answer,
            None => b"",
        }
    }

    /// Ends the run so, and says how that ended.
    pub fn end(&mut self, how: &str) -> &'static [u8] {
        let Some(bench) = self.bench.take() else {
            return b"no run";
        };
        let (end, kit) = bench.end(self.alloc, how);
        self.keep_left(kit);
        end
    }

    /// What the run noted.
    pub fn entries(&self) -> &[(Entry, End)] {
        match &self.left {
            Some(kit) => kit.journal.entries(),
            None => &[],
        }
    }

    /// The run, as it is judged.
    pub fn run(&self) -> Run<'_> {
        Run {
            files: &self.files,
            began: self.began,
            entries: self.entries(),
            opened: self.opened,
        }
    }

    /// A file that the run left, where it is there.
    pub fn file(&self, name: &str) -> Option<&[u8]> {
        match &self.left {
            Some(kit) => kit.folder.file(name),
            None => None,
        }
    }

    /// How many calls of the folder were made in the run, and whether one of them failed.
    pub fn called(&self) -> (u64, bool) {
        match &self.left {
            Some(kit) => (kit.folder.called().len() as u64, kit.folder.faults() != 0),
            None => (0, false),
        }
    }

    /// The files that the run left.
    pub fn files_left(&mut self, rt: &impl Abort) -> Vec<NamedFile> {
        match &mut self.left {
            Some(kit) => files_in(rt, self.alloc, &mut kit.folder),
            None => Vec::new(self.alloc),
        }
    }

    /// The next run has these files, the defaults, and a folder that doesn't fail.
    pub fn go_on(&mut self, files: Vec<NamedFile>) {
        self.files = files;
        self.setting = DEFAULTS;
        self.fails.clear();
        self.dials.show(0);
    }
}
