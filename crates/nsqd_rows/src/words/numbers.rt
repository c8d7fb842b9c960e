//! Sizes and counts.

/// Sizes and counts that are said, in both forms, and the ends of their ranges.
pub const SAID: &str = "\
    nsqd --mem-queue-size=5 => serve mem-queue-size=5\n\
    nsqd --mem-queue-size 5 => serve mem-queue-size=5\n\
    nsqd --mem-queue-size=0 => serve mem-queue-size=0\n\
    nsqd --mem-queue-size=1000000 => serve mem-queue-size=1000000\n\
    nsqd --mem-queue-size=10000 => serve\n\
    nsqd --max-bytes-per-file=7 => serve max-bytes-per-file=7\n\
    nsqd --max-bytes-per-file 1 => serve max-bytes-per-file=1\n\
    nsqd --max-bytes-per-file=1099511627776 => serve max-bytes-per-file=1099511627776\n\
    nsqd --sync-every=1 => serve sync-every=1\n\
    nsqd --sync-every 1000000000 => serve sync-every=1000000000\n\
    nsqd --max-msg-size=1 => serve max-msg-size=1\n\
    nsqd --max-msg-size 16777216 => serve max-msg-size=16777216\n\
    nsqd --max-body-size=1 => serve max-body-size=1\n\
    nsqd --max-body-size 268435456 => serve max-body-size=268435456\n\
    nsqd --max-rdy-count=1 => serve max-rdy-count=1\n\
    nsqd --max-rdy-count 100000 => serve max-rdy-count=100000\n\
    nsqd --sync-every=007 => serve sync-every=7\n\
    nsqd --sync-every=000000000000000007 => serve sync-every=7\n\
    nsqd --sync-every=3 --mem-queue-size 4 --max-rdy-count=5 => serve mem-queue-size=4 sync-every=3 max-rdy-count=5";

/// Numbers one beyond an end of a range, and what 32 bits would make of greater ones.
pub const BEYOND: &str = "\
    nsqd --mem-queue-size=1000001 => unknown\n\
    nsqd --max-bytes-per-file=0 => unknown\n\
    nsqd --max-bytes-per-file=1099511627777 => unknown\n\
    nsqd --sync-every=0 => unknown\n\
    nsqd --sync-every=1000000001 => unknown\n\
    nsqd --max-msg-size=0 => unknown\n\
    nsqd --max-msg-size=16777217 => unknown\n\
    nsqd --max-msg-size=4294967297 => unknown\n\
    nsqd --max-body-size=0 => unknown\n\
    nsqd --max-body-size=268435457 => unknown\n\
    nsqd --max-body-size=4294967297 => unknown\n\
    nsqd --max-rdy-count=0 => unknown\n\
    nsqd --max-rdy-count=100001 => unknown\n\
    nsqd --max-rdy-count=4294967297 => unknown\n\
    nsqd --sync-every=999999999999999999 => unknown";

/// Texts that are no numbers.
pub const NO_NUMBERS: &str = "\
    nsqd --mem-queue-size=x => unknown\n\
    nsqd --mem-queue-size= => unknown\n\
    nsqd --mem-queue-size=-1 => unknown\n\
    nsqd --mem-queue-size -1 => unknown\n\
    nsqd --mem-queue-size=+5 => unknown\n\
    nsqd --mem-queue-size=5x => unknown\n\
    nsqd --mem-queue-size=0x10 => unknown\n\
    nsqd --mem-queue-size=1_000 => unknown\n\
    nsqd --mem-queue-size==5 => unknown\n\
    nsqd --mem-queue-size=5s => unknown\n\
    nsqd --sync-every=0000000000000000007 => unknown\n\
    nsqd --sync-every=/ => unknown\n\
    nsqd --sync-every=: => unknown\n\
    nsqd --max-msg-size=x => unknown\n\
    nsqd --max-body-size=x => unknown\n\
    nsqd --max-rdy-count=x => unknown\n\
    nsqd --max-bytes-per-file=x => unknown";
