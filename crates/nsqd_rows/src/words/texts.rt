//! Addresses and the data path.

/// Texts that are said, in both forms.
pub const SAID: &str = "\
    nsqd --tcp-address=127.0.0.1:4150 => serve tcp-address=127.0.0.1:4150\n\
    nsqd --tcp-address localhost:1 => serve tcp-address=localhost:1\n\
    nsqd --tcp-address=:65535 => serve tcp-address=:65535\n\
    nsqd --tcp-address=[::1]:4150 => serve tcp-address=[::1]:4150\n\
    nsqd --tcp-address=0.0.0.0:4150 => serve\n\
    nsqd --http-address=127.0.0.1:8080 => serve http-address=127.0.0.1:8080\n\
    nsqd --http-address :1 => serve http-address=:1\n\
    nsqd --broadcast-address=a => serve broadcast-address=a\n\
    nsqd --broadcast-address host.example => serve broadcast-address=host.example\n\
    nsqd --data-path=/var/lib/nsqd => serve data-path=/var/lib/nsqd\n\
    nsqd --data-path x => serve data-path=x\n\
    nsqd --data-path=a=b => serve data-path=a=b\n\
    nsqd --data-path=--help => serve data-path=--help\n\
    nsqd --tcp-address=:1 --http-address=:2 --data-path=d --broadcast-address=b => serve tcp-address=:1 http-address=:2 broadcast-address=b data-path=d";

/// Texts that aren't right for their options.
pub const WRONG: &str = "\
    nsqd --tcp-address= => unknown\n\
    nsqd --tcp-address=x => unknown\n\
    nsqd --tcp-address=localhost => unknown\n\
    nsqd --tcp-address=localhost: => unknown\n\
    nsqd --tcp-address=:0 => unknown\n\
    nsqd --tcp-address=:65536 => unknown\n\
    nsqd --tcp-address=:04150 => unknown\n\
    nsqd --tcp-address=:4150x => unknown\n\
    nsqd --tcp-address=4150 => unknown\n\
    nsqd --http-address=:0 => unknown\n\
    nsqd --http-address=:65536 => unknown\n\
    nsqd --http-address= => unknown\n\
    nsqd --broadcast-address= => unknown\n\
    nsqd --data-path= => unknown\n\
    nsqd --data-path  => unknown";
