//! All other words.

/// Words that ask for something.
pub const RIGHT: &str = "\
    nsqd => serve\n\
    nsqd -- => serve\n\
    nsqd --help => help\n\
    nsqd -h => help\n\
    nsqd --version => version\n\
    nsqd -V => version\n\
    nsqd --version --sync-every=x => version\n\
    nsqd --sync-every=x --version => version\n\
    nsqd --sync-every=x --help => help\n\
    nsqd --version --unknown => version\n\
    nsqd --help --version => help\n\
    nsqd --version --help => version";

/// An option is given once.
pub const REPEATED: &str = "\
    nsqd --mem-queue-size=5 --mem-queue-size=5 => unknown\n\
    nsqd --mem-queue-size=5 --mem-queue-size 6 => unknown\n\
    nsqd --mem-queue-size 5 --sync-every=3 --mem-queue-size=5 => unknown\n\
    nsqd --tcp-address :4150 --tcp-address :4150 => unknown\n\
    nsqd --msg-timeout=1m --msg-timeout=1m => unknown\n\
    nsqd --data-path=a --data-path=a => unknown";

/// The flag.
pub const FLAG: &str = "\
    nsqd --http-stop => serve http-stop\n\
    nsqd --http-stop --sync-every=3 => serve sync-every=3 http-stop\n\
    nsqd --sync-every 3 --http-stop => serve sync-every=3 http-stop\n\
    nsqd --sync-every 3 --http-stop --data-path d => serve data-path=d sync-every=3 http-stop\n\
    nsqd --tcp-address=:1 --http-stop --http-address :2 => serve tcp-address=:1 http-address=:2 http-stop\n\
    nsqd --http-stop -- => serve http-stop\n\
    nsqd --data-path=--http-stop => serve data-path=--http-stop\n\
    nsqd --sync-every=3 => serve sync-every=3\n\
    nsqd --http-stop --help => help\n\
    nsqd --http-stop --version => version\n\
    nsqd --http-stop --sync-every=0 => unknown\n\
    nsqd --http-stop --http-stop => unknown\n\
    nsqd --http-stop --sync-every=3 --http-stop => unknown\n\
    nsqd --http-stop=true => unknown\n\
    nsqd --http-stop=false => unknown\n\
    nsqd --http-stop= => unknown\n\
    nsqd --http-stop true => unknown\n\
    nsqd --http-stop false => unknown\n\
    nsqd --http-stop  => unknown\n\
    nsqd --http-stop --sync-every=3 false => unknown\n\
    nsqd --data-path --http-stop => unknown\n\
    nsqd -- --http-stop => unknown";

/// Words that nothing is known of.
pub const WRONG: &str = "\
    nsqd --no-http-stop => unknown\n\
    nsqd --http_stop => unknown\n\
    nsqd --http-sto => unknown\n\
    nsqd --Http-Stop => unknown\n\
    nsqd http-stop => unknown\n\
    nsqd --lookupd-tcp-address=127.0.0.1:4160 => unknown\n\
    nsqd --lookupd-tcp-address 127.0.0.1:4160 => unknown\n\
    nsqd --unknown => unknown\n\
    nsqd --unknown=3 => unknown\n\
    nsqd --unknown --version => unknown\n\
    nsqd --mem-queue-siz=5 => unknown\n\
    nsqd --Mem-Queue-Size=5 => unknown\n\
    nsqd -mem-queue-size=5 => unknown\n\
    nsqd -x => unknown\n\
    nsqd - => unknown\n\
    nsqd stray => unknown\n\
    nsqd  => unknown\n\
    nsqd mem-queue-size=5 => unknown\n\
    nsqd -- stray => unknown\n\
    nsqd help => unknown\n\
    nsqd --sync-every => unknown\n\
    nsqd --sync-every --version => unknown\n\
    nsqd --sync-every --mem-queue-size=5 => unknown\n\
    nsqd --sync-every 5 6 => unknown\n\
    nsqd --version=3 => unknown\n\
    nsqd --help=x => unknown";
