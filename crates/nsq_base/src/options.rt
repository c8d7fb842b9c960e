ghost use Rattle.std.specs.Prelude.{◌≡◌, ◌<◌, ◌↔◌, length, IsTrue, IfOk, All};
ghost use Rattle.nsq_base.specs.Text.{IsText};
ghost use Rattle.nsq_base.specs.Within.{IsWithin};

use crate::address::is_address;
use crate::time::{HOUR, MILLISECOND, MINUTE, SECOND};
use crate::{Bodies, Body, Memory};
use std::alloc::Global;

/// The options of the daemon: one field for each option of `nsqd`, with `_` for `-`. Durations are in nanoseconds, sizes
/// in bytes. Texts are UTF-8.
#[derive(Drop)]
pub struct Options {
    /// Where clients are listened for, as `0.0.0.0:4150`: a text with `:` and a port of 1 to 65535, without a zero in front,
    /// behind its last `:`.
    pub tcp_address: Body,
    /// Where HTTP requests are listened for, in the same form.
    pub http_address: Body,
    /// The address that is told to the lookup daemons: 1 to 65536 bytes.
    pub broadcast_address: Body,
    /// The addresses of the lookup daemons, none of them empty.
    pub lookupd_tcp_address: Bodies,
    /// The folder of the queue files, not empty.
    pub data_path: Body,
    /// How many messages a topic or a channel keeps in memory: 0 to 1000000.
    pub mem_queue_size: u64,
    /// How many bytes a queue file has before the next one is begun: 1 to 2^40.
    pub max_bytes_per_file: u64,
    /// After how many records a queue is saved: 1 to 1000000000.
    pub sync_every: u64,
    /// After how much time a queue is saved: 1 ms to 8760 h.
    pub sync_timeout: u64,
    /// How long a client has for a message, where it doesn't say: 1 ms to `max_msg_timeout`.
    pub msg_timeout: u64,
    /// How long a client may ask to have for a message: 1 ms to 8760 h.
    pub max_msg_timeout: u64,
    /// The most bytes of a message's body: 1 to 16777216.
    pub max_msg_size: u32,
    /// The most bytes of a command's body: 1 to 268435456.
    pub max_body_size: u32,
    /// The longest delay of a message: 1 ms to 8760 h.
    pub max_req_timeout: u64,
    /// The most messages in flight that a client may ask for: 1 to 100000.
    pub max_rdy_count: u32,
    /// The longest time between two heartbeats: 1 s to 8760 h.
    pub max_heartbeat_interval: u64,
    /// Whether a stop is served over HTTP.
    pub http_stop: bool,
}

impl Options {
    ghost use Rattle.nsq_base.specs.Options.{IsInRange, AreTextsUtf8, AreTextsInRange, AreSizesInRange, AreTimesInRange, default_options};

    /// The options of a daemon that was given none.
    pub fn defaults(alloc: Global) -> Result<Options, Memory>
        ensures value { IfOk result (λ options. options ≡ default_options) }
        ensures in_range { IfOk result IsInRange }
    {
        Ok(Options {
            tcp_address: Body::copy(alloc, b"0.0.0.0:4150")?,
            http_address: Body::copy(alloc, b"0.0.0.0:4151")?,
            broadcast_address: Body::copy(alloc, b"127.0.0.1")?,
            lookupd_tcp_address: Bodies::new(alloc),
            data_path: Body::copy(alloc, b".")?,
            mem_queue_size: 10_000,
            max_bytes_per_file: 104_857_600,
            sync_every: 2_500,
            sync_timeout: 2 * SECOND,
            msg_timeout: 60 * SECOND,
            max_msg_timeout: 15 * MINUTE,
            max_msg_size: 1_048_576,
            max_body_size: 5_242_880,
            max_req_timeout: HOUR,
            max_rdy_count: 2_500,
            max_heartbeat_interval: 60 * SECOND,
            http_stop: false,
        })
    }

    /// Whether each option has a value in its range.
    pub fn in_range(&self) -> bool
        ensures { IsTrue result ↔ IsInRange self.now }
    {
        self.texts_in_range() && self.sizes_in_range() && self.times_in_range()
    }

    /// A copy.
    pub fn copy(&self, alloc: Global) -> Result<Options, Memory>
        ensures { IfOk result (λ options. options ≡ self.now) }
    {
        let lookupd_tcp_address = self.lookupd_tcp_address.copy(alloc)?;
        let Texts {
            tcp_address,
            http_address,
            broadcast_address,
            data_path,
        } = texts_of(
            alloc,
            self.tcp_address.bytes(),
            self.http_address.bytes(),
            self.broadcast_address.bytes(),
            self.data_path.bytes(),
        )?;
        Ok(Options {
            tcp_address,
            http_address,
            broadcast_address,
            lookupd_tcp_address,
            data_path,
            mem_queue_size: self.mem_queue_size,
            max_bytes_per_file: self.max_bytes_per_file,
            sync_every: self.sync_every,
            sync_timeout: self.sync_timeout,
            msg_timeout: self.msg_timeout,
            max_msg_timeout: self.max_msg_timeout,
            max_msg_size: self.max_msg_size,
            max_body_size: self.max_body_size,
            max_req_timeout: self.max_req_timeout,
            max_rdy_count: self.max_rdy_count,
            max_heartbeat_interval: self.max_heartbeat_interval,
            http_stop: self.http_stop,
        })
    }

    // The part of the test that is about texts.
    fn texts_in_range(&self) -> bool
        ensures { IsTrue result ↔ AreTextsInRange self.now }
    {
        self.texts_are_utf8()
            && is_address(self.tcp_address.bytes())
            && is_address(self.http_address.bytes())
            && is_within(1, 65_536, self.broadcast_address.bytes().len() as u64)
            && none_empty(self.lookupd_tcp_address.as_slice())
            && !self.data_path.bytes().is_empty()
    }

    // Whether each text is UTF-8.
    fn texts_are_utf8(&self) -> bool
        ensures { IsTrue result ↔ AreTextsUtf8 self.now }
    {
        is_utf8(&self.tcp_address)
            && is_utf8(&self.http_address)
            && is_utf8(&self.broadcast_address)
            && are_utf8(self.lookupd_tcp_address.as_slice())
            && is_utf8(&self.data_path)
    }

    // The part of the test that is about sizes and counts.
    fn sizes_in_range(&self) -> bool
        ensures { IsTrue result ↔ AreSizesInRange self.now }
    {
        self.mem_queue_size <= 1_000_000
            && is_within(1, 1 << 40, self.max_bytes_per_file)
            && is_within(1, 1_000_000_000, self.sync_every)
            && is_within(1, 16_777_216, u64::from(self.max_msg_size))
            && is_within(1, 268_435_456, u64::from(self.max_body_size))
            && is_within(1, 100_000, u64::from(self.max_rdy_count))
    }

    // The part of the test that is about durations.
    fn times_in_range(&self) -> bool
        ensures { IsTrue result ↔ AreTimesInRange self.now }
    {
        is_within(MILLISECOND, YEAR, self.sync_timeout)
            && is_within(MILLISECOND, self.max_msg_timeout, self.msg_timeout)
            && is_within(MILLISECOND, YEAR, self.max_msg_timeout)
            && is_within(MILLISECOND, YEAR, self.max_req_timeout)
            && is_within(SECOND, YEAR, self.max_heartbeat_interval)
    }
}

// The options that are one text each.
#[derive(Drop)]
struct Texts {
    tcp_address: Body,
    http_address: Body,
    broadcast_address: Body,
    data_path: Body,
}

// Copies of these texts. Want of memory is the only error.
fn texts_of(
    alloc: Global,
    tcp_address: &[u8],
    http_address: &[u8],
    broadcast_address: &[u8],
    data_path: &[u8],
) -> Result<Texts, Memory>
    ensures { IfOk result (λ texts. texts ≡ record { tcp_address = tcp_address.now; http_address = http_address.now; broadcast_address = broadcast_address.now; data_path = data_path.now }) }
{
    Ok(Texts {
        tcp_address: Body::copy(alloc, tcp_address)?,
        http_address: Body::copy(alloc, http_address)?,
        broadcast_address: Body::copy(alloc, broadcast_address)?,
        data_path: Body::copy(alloc, data_path)?,
    })
}

/// The longest duration of an option: 8760 hours.
const YEAR: u64 = 8_760 * HOUR;

// Whether a text is UTF-8.
fn is_utf8(text: &Body) -> bool
    ensures { IsTrue result ↔ IsText text.now }
{
    std::str::from_utf8(text.bytes()).is_ok()
}

// Whether each text is UTF-8.
fn are_utf8(texts: &[Body]) -> bool
    ensures { IsTrue result ↔ All IsText texts.now }
{
    texts.iter().all(is_utf8)
}

// Whether none of the texts is empty.
fn none_empty(texts: &[Body]) -> bool
    ensures { IsTrue result ↔ All (λ text. 0 < length text) texts.now }
{
    texts.iter().all(|text| !text.bytes().is_empty())
}

// Whether a number lies from a least one to a greatest one.
fn is_within(least: u64, greatest: u64, n: u64) -> bool
    ensures { IsTrue result ↔ IsWithin least greatest n }
{
    least <= n && n <= greatest
}
