//! The real machine as a host: its listeners on the loopback network, its folder on disk, the standard streams; and a run of the daemon over it.
ghost use Rattle.std.specs.Prelude.{IsSome};
ghost use Rattle.nsq_base.specs.Options.{IsInRange};
ghost use Rattle.nsq_outside.specs.Hosts.{OnlyAcceptFaults};
ghost use Rattle.nsqd_host.specs.SysHosts.{IsAtHome, state_of};

use crate::texts::{check, same, unknown};
use broker_history::Entry;
use daemon_main::{Ending, close, line, serve};
use nsq_base::{Body, Options};
use nsq_outside::{Accept, Clock as _, Did, Folder, Host, Kind, Read, Sink, Source, Write};
use nsq_system::{SysClock, TcpConn};
use nsqd_host::SysHost;
use std::alloc::Global;
use std::io::{Read as _, Write as _};
use std::net::{TcpListener, TcpStream};
use std::process::Abort;
use std::sync::Wait;
use std::thread::{self, Threads, join};
use std::time::Duration;
use std::{fs, io};

/// How often a client tries to connect, 10 ms apart, and how often a host is asked for a caller.
const TRIES: u32 = 1000;

/// The folders of the rows, in the one that the tests run in.
const FILES: &str = "nsqd_host_files";

const PUBLISHED: &str = "nsqd_loopback_published";

const IN_USE: &str = "nsqd_loopback_in_use";

/// What stands in the files of the publish.
const META: &[u8] = b"1\n0,0\n0,32\n";

const NAMES: &[u8] =
    br#"{"id_epoch":1,"topics":[{"channels":[],"name":"t","paused":false}],"version":"1.0.0"}"#;

/// The answer to a stop over HTTP.
const HTTP_OK: &[u8] =
    b"HTTP/1.1 200 OK\r\nContent-Type: text/plain; charset=utf-8\r\nContent-Length: 2\r\nConnection: close\r\n\r\nOK";

/// A listener at a port of this machine that the system chose.
fn listener(rt: &impl Abort, own: &HostRuntime) -> TcpListener {
    TcpListener::bind(own, "127.0.0.1:0").expect(rt, "a listener")
}

/// The address of a listener.
fn address_of(rt: &impl Abort, alloc: Global, listener: &TcpListener) -> String {
    let address = listener.local_addr().expect(rt, "an address");
    format!(in alloc; "{address}").expect(rt, "memory")
}

/// An address of this machine where nobody listens.
fn free_address(rt: &impl Abort, own: &HostRuntime) -> String {
    let listener = listener(rt, own);
    address_of(rt, own.alloc(), &listener)
}

/// Two addresses of this machine where nobody listens.
fn free_addresses(rt: &impl Abort, own: &HostRuntime) -> (String, String) {
    let first = listener(rt, own);
    let second = listener(rt, own);
    let tcp = address_of(rt, own.alloc(), &first);
    let http = address_of(rt, own.alloc(), &second);
    (tcp, http)
}

/// A new, empty folder of this name.
fn new_folder(rt: &impl Abort, own: &HostRuntime, path: &str) {
    let _ = fs::remove_dir_all(own, path);
    fs::create_dir(own, path).expect(rt, "a new folder");
}

/// The real machine as a host that doesn't listen yet.
fn new_host(rt: &impl Abort, own: HostRuntime) -> SysHost<HostRuntime>
    ensures { IsAtHome (state_of result) }
{
    let alloc = own.alloc();
    SysHost::new(own, alloc).expect(rt, "memory")
}

/// The runtime once more.
fn copy_of(rt: &impl Abort, own: &HostRuntime) -> HostRuntime {
    own.clone().expect(rt, "memory")
}

/// The caller, if there is one.
fn caller(accept: Accept<TcpConn>) -> Option<(Kind, TcpConn)> {
    match accept {
        Accept::Caller(kind, conn) => Some((kind, conn)),
        Accept::Nothing | Accept::Halt | Accept::Failed => None,
    }
}

/// Whether nobody called yet.
fn is_nothing(accept: Accept<TcpConn>) -> bool {
    match accept {
        Accept::Nothing => true,
        Accept::Caller(_, _) | Accept::Halt | Accept::Failed => false,
    }
}

/// Whether a host listens at these addresses, with the folder of this path.
fn starts<R: Wait>(
    rt: &R,
    host: &mut SysHost<HostRuntime>,
    tcp: &str,
    http: &str,
    path: &str,
) -> bool
    ensures { OnlyAcceptFaults (state_of host.old) (state_of host.new) }
{
    host.start(rt, tcp, http, path) == Did::Done
}

/// What a host answers who is asked for a caller.
fn accepted<R: Wait>(rt: &R, host: &mut SysHost<HostRuntime>) -> Accept<TcpConn> {
    host.accept(rt)
}

/// The host's next caller.
fn next_caller<R: Abort + Wait>(rt: &R, host: &mut SysHost<HostRuntime>) -> (Kind, TcpConn) {
    for _ in 0..TRIES {
        if let Some(called) = caller(accepted(rt, host)) {
            return called;
        }
    }
    panic!(rt; "no caller")
}

/// Sends bytes, behind which no read waits longer than 10 s.
fn send(rt: &impl Abort, stream: &mut TcpStream, bytes: &[u8]) {
    stream
        .set_read_timeout(Some(Duration::from_secs(10)))
        .expect(rt, "a time to wait");
    stream.write_all(bytes).expect(rt, "bytes that are sent");
}

/// A client that calls at an address, and sends its first bytes.
fn call(rt: &impl Abort, own: &HostRuntime, address: &str, bytes: &[u8]) -> TcpStream {
    let mut client = TcpStream::connect(own, address).expect(rt, "a connection");
    send(rt, &mut client, bytes);
    client
}

/// Whether a connection begins with these four bytes. It is told `OK`.
fn begins<R: Wait>(rt: &R, conn: &mut TcpConn, bytes: &[u8]) -> bool {
    let mut buf = [0u8; 64];
    conn.read(rt, &mut buf) == Read::Got(4)
        && buf.starts_with(bytes)
        && conn.write(rt, b"OK") == Write::Took(2)
}

/// What the next caller speaks, and whether it began as it must. Then it is handed back.
fn serves_next<R: Abort + Wait>(rt: &R, host: &mut SysHost<HostRuntime>) -> (Kind, bool) {
    let (speaks, mut conn) = next_caller(rt, host);
    let is_served = begins(rt, &mut conn, b"  V2");
    host.done(1, conn);
    (speaks, is_served)
}

/// Whether a client that calls at an address is the next caller, of this kind, and gets what is written to it.
fn meets<R: Abort + Wait>(
    rt: &R,
    own: &HostRuntime,
    host: &mut SysHost<HostRuntime>,
    address: &str,
    kind: Kind,
) -> bool {
    let client = call(rt, own, address, b"  V2");
    let (speaks, is_served) = serves_next(rt, host);
    let answer = io::read_to_string(own.alloc(), client).expect(rt, "an answer");
    speaks == kind && is_served && same(answer.as_bytes(), b"OK")
}

/// Ends the run where this doesn't hold of a host that is new.
fn check_host<R: Abort + Wait>(rt: &R, own: &HostRuntime, row: &str) {
    let (tcp, http) = free_addresses(rt, own);
    let mut host = new_host(rt, copy_of(rt, own));
    let holds = match row {
        "callers at both addresses" => gives_callers(rt, own, &mut host, &tcp, &http),
        "an address in use" => counts_faults(rt, own, &mut host),
        "the kit and the standard streams" => keeps_its_kit(rt, own, &mut host, &tcp, &http),
        _ => unknown(rt, row),
    };
    drop(host);
    check(rt, holds, row);
}

/// Whether the host gives each caller with the kind of the address that it called at, one after another, and waits for more.
fn gives_callers<R: Abort + Wait>(
    rt: &R,
    own: &HostRuntime,
    host: &mut SysHost<HostRuntime>,
    tcp: &str,
    http: &str,
) -> bool {
    starts(rt, host, tcp, http, ".")
        && meets(rt, own, host, tcp, Kind::Tcp)
        && meets(rt, own, host, http, Kind::Http)
        && meets(rt, own, host, tcp, Kind::Tcp)
        && is_nothing(accepted(rt, host))
        && host.accept_faults() == 0
}

/// Whether the host counts that either address is in use or is none, and that it doesn't listen.
fn counts_faults<R: Abort + Wait>(
    rt: &R,
    own: &HostRuntime,
    host: &mut SysHost<HostRuntime>,
) -> bool {
    let listener = listener(rt, own);
    let in_use = address_of(rt, own.alloc(), &listener);
    let free = free_address(rt, own);
    counts_each(rt, host, in_use.as_str(), free.as_str())
}

/// The same of a host that is new, with an address that is in use and one that isn't.
fn counts_each<R: Wait>(rt: &R, host: &mut SysHost<HostRuntime>, in_use: &str, free: &str) -> bool {
    !starts(rt, host, in_use, free, ".")
        && !starts(rt, host, free, in_use, ".")
        && !starts(rt, host, free, "no port", ".")
        && host.accept_faults() == 3
        && caller(accepted(rt, host)).is_none()
        && host.accept_faults() == 4
}

/// Whether the folder is the one that was asked for, the kit comes home, and the standard streams take what they are given.
fn keeps_its_kit<R: Abort + Wait>(
    rt: &R,
    own: &HostRuntime,
    host: &mut SysHost<HostRuntime>,
    tcp: &str,
    http: &str,
) -> bool
    requires { IsSome (state_of host.old).kit }
{
    new_folder(rt, own, FILES);
    let started = starts(rt, host, tcp, http, FILES);
    let cut = cuts(host);
    let is_well = is_well(rt, host);
    started && cut && has_cut(rt, own) && is_well
}

/// Whether the folder makes a file of three bytes.
fn cuts(host: &mut SysHost<HostRuntime>) -> bool
    requires { IsSome (state_of host.old).kit }
{
    let mut home = host.lend();
    let cut = home.folder.cut("a", 3);
    host.restore(home);
    cut == Did::Done
}

/// Whether the file that was cut has three bytes. Then its folder is removed.
fn has_cut(rt: &impl Abort, own: &HostRuntime) -> bool {
    let file = fs::metadata(own, "nsqd_host_files/a").expect(rt, "a file");
    fs::remove_dir_all(own, FILES).expect(rt, "no folder");
    file.len() == 3
}

/// Whether the kit is at home, and the standard streams take what they are given.
fn is_well<R: Wait>(rt: &R, host: &mut SysHost<HostRuntime>) -> bool {
    let printed = host.print(rt, b"nsqd 1.0.0\n");
    host.tell(rt, b"nsqd: a \xffline");
    printed == Did::Done
        && host.is_at_home()
        && !host.beside()
        && host.print_faults() == 0
        && host.tell_faults() == 0
}

/// The default options but for the addresses, the folder and the flag by which HTTP may stop the daemon.
fn options_at(rt: &impl Abort, alloc: Global, tcp: &str, http: &str, path: &str) -> Options
    ensures { IsInRange result }
{
    let mut options = Options::defaults(alloc).expect(rt, "memory");
    set(rt, alloc, &mut options.tcp_address, tcp);
    set(rt, alloc, &mut options.http_address, http);
    set(rt, alloc, &mut options.data_path, path);
    options.http_stop = true;
    assert!(rt; options.in_range(), "options that none has");
    options
}

/// Puts a text in the place of this one.
fn set(rt: &impl Abort, alloc: Global, text: &mut Body, new: &str) {
    *text = Body::copy(alloc, new.as_bytes()).expect(rt, "memory");
}

/// Publishes one message over TCP and waits for the reply, and closes.
fn publish(rt: &impl Abort, own: &HostRuntime, address: &str) -> [u8; 10] {
    let mut stream = connected(rt, own, address);
    send(rt, &mut stream, b"  V2PUB t\n\0\0\0\x02hi");
    let mut got = [0u8; 10];
    stream.read_exact(&mut got).expect(rt, "a reply");
    got
}

/// A client that calls at an address once somebody listens there.
fn connected(rt: &impl Abort, own: &HostRuntime, address: &str) -> TcpStream {
    for _ in 0..TRIES {
        if let Ok(stream) = TcpStream::connect(own, address) {
            return stream;
        }
        thread::sleep(own, Duration::from_millis(10));
    }
    panic!(rt; "no listener")
}

/// Publishes one message over TCP, and then asks for a stop over HTTP: whether both were answered as they should.
fn publish_and_stop(rt: &impl Abort, own: &HostRuntime, tcp: &str, http: &str) -> bool {
    let published = publish(rt, own, tcp);
    let stopper = call(rt, own, http, b"POST /stop HTTP/1.1\r\n\r\n");
    let stopped = io::read_to_string(own.alloc(), stopper).expect(rt, "an answer");
    same(&published, b"\0\0\0\x06\0\0\0\0OK") && same(stopped.as_bytes(), HTTP_OK)
}

/// Serves at these addresses with this folder, as the program does: the status, and the line that was told.
fn serve_at<R: Abort + Wait>(
    rt: &R,
    own: HostRuntime,
    tcp: &str,
    http: &str,
    path: &str,
) -> (u8, Option<&'static [u8]>) {
    let alloc = own.alloc();
    let options = options_at(rt, alloc, tcp, http, path);
    let mut host = new_host(rt, own);
    let ended = serve_and_close(rt, alloc, &options, &mut host);
    drop(host);
    drop(options);
    ended
}

/// The same over any host with these options. A call of a generic function at a concrete host is dear: here is one in place of two.
fn serve_and_close<R: Wait, H: Host<Entry>>(
    rt: &R,
    alloc: Global,
    options: &Options,
    host: &mut H,
) -> (u8, Option<&'static [u8]>)
    requires home { IsSome (H.state host.old).kit }
    requires options { IsInRange options.now }
{
    let ending = Ending::Served(serve(rt, alloc, options, host));
    (close(rt, host, ending), line(ending))
}

/// The bytes of a file, which is removed.
fn taken(rt: &impl Abort, own: &HostRuntime, path: &str) -> Vec<u8> {
    let bytes = fs::read(own, path).expect(rt, "a file");
    fs::remove_file(own, path).expect(rt, "no file");
    bytes
}

/// Whether the folder of the publish has its record, with a moment between these two, its metadata and the names, and no other file.
/// Then it is removed.
fn is_kept(rt: &impl Abort, own: &HostRuntime, before: u64, after: u64) -> bool {
    let record = taken(rt, own, "nsqd_loopback_published/t.diskqueue.000000.dat");
    let is_published = is_published(&record, before, after);
    drop(record);
    let has_meta = has_file(
        rt,
        own,
        "nsqd_loopback_published/t.diskqueue.meta.dat",
        META,
    );
    let has_names = has_file(rt, own, "nsqd_loopback_published/nsqd.dat", NAMES);
    is_published && has_meta && has_names && fs::remove_dir(own, PUBLISHED).is_ok()
}

/// Whether a file has these bytes. It is removed.
fn has_file(rt: &impl Abort, own: &HostRuntime, path: &str, bytes: &[u8]) -> bool {
    let file = taken(rt, own, path);
    same(&file, bytes)
}

/// Whether a record is that of the publish, with a moment between these two, which stands behind its size.
fn is_published(record: &[u8], before: u64, after: u64) -> bool {
    if record.len() != 32 {
        return false;
    }
    let mut bytes = [0u8; 8];
    bytes.copy_from_slice(&record[4..12]);
    let moment = u64::from_be_bytes(bytes);
    before <= moment
        && moment <= after
        && same(&record[..4], b"\0\0\0\x1c")
        && same(&record[12..], b"\0\00000010000000000hi")
}

/// Whether a daemon takes the publish of a real connection, answers the stop behind it and stops well.
fn serves<R: Abort + Wait + Threads + Sync>(rt: &R, own: &HostRuntime) -> bool {
    new_folder(rt, own, PUBLISHED);
    let (tcp, http) = free_addresses(rt, own);
    let for_host = copy_of(rt, own);
    let mut clock = SysClock::new(copy_of(rt, own));
    let before = clock.now();
    let (answered, (status, line)) = join(
        rt,
        || publish_and_stop(rt, own, tcp.as_str(), http.as_str()),
        || serve_at(rt, for_host, tcp.as_str(), http.as_str(), PUBLISHED),
    );
    answered && status == 0 && line.is_none() && is_kept(rt, own, before, clock.now())
}

/// Whether a daemon whose port for HTTP is in use says so, and leaves its folder alone.
fn refuses_a_port<R: Abort + Wait>(rt: &R, own: &HostRuntime) -> bool {
    new_folder(rt, own, IN_USE);
    let listener = listener(rt, own);
    let in_use = address_of(rt, own.alloc(), &listener);
    let free = free_address(rt, own);
    let (status, line) = serve_at(rt, copy_of(rt, own), free.as_str(), in_use.as_str(), IN_USE);
    fs::remove_dir(own, IN_USE).expect(rt, "an empty folder");
    status == 4 && same(line.unwrap_or(b""), b"nsqd: accept failed")
}

#[test]
fn the_real_machine(rt: HostRuntime) {
    check_host(&rt, &rt, "callers at both addresses");
    check_host(&rt, &rt, "an address in use");
    check_host(&rt, &rt, "the kit and the standard streams");
    check(&rt, serves(&rt, &rt), "real connections");
    check(&rt, refuses_a_port(&rt, &rt), "a port in use");
}
