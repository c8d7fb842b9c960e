//! Drills.

/// Drills that are run.
pub const RIGHT: &str = "\
    nsqd drill 7 10 => drill 7 10\n\
    nsqd drill 0 0 => drill 0 0\n\
    nsqd drill 576460752303423488 100000 => drill 576460752303423488 100000\n\
    nsqd drill 000000000000000007 000000000000000010 => drill 7 10\n\
    drill drill 1 2 => drill 1 2";

/// Words of a drill that aren't right.
pub const WRONG: &str = "\
    nsqd drill => unknown\n\
    nsqd drill 7 => unknown\n\
    nsqd drill 7 10 1 => unknown\n\
    nsqd drill x 1 => unknown\n\
    nsqd drill 1 x => unknown\n\
    nsqd drill -1 1 => unknown\n\
    nsqd drill +1 1 => unknown\n\
    nsqd drill 1 1x => unknown\n\
    nsqd drill 576460752303423489 1 => unknown\n\
    nsqd drill 999999999999999999 1 => unknown\n\
    nsqd drill 1 100001 => unknown\n\
    nsqd drill 0000000000000000007 1 => unknown\n\
    nsqd drill 7 0000000000000000001 => unknown\n\
    nsqd drill  1 => unknown\n\
    nsqd drill --help => unknown\n\
    nsqd drill 7 10 --sync-every=5 => unknown\n\
    nsqd --sync-every=5 drill 7 10 => unknown\n\
    nsqd drill 7 10 --http-stop => unknown\n\
    nsqd --http-stop drill 7 10 => unknown\n\
    nsqd Drill 7 10 => unknown\n\
    drill 7 10 => unknown";
