//! Durations.

/// Durations that are said, in both forms, and the ends of their ranges.
pub const SAID: &str = "\
    nsqd --msg-timeout=1m30s => serve msg-timeout=90000000000\n\
    nsqd --msg-timeout 1m30s => serve msg-timeout=90000000000\n\
    nsqd --msg-timeout=1ms => serve msg-timeout=1000000\n\
    nsqd --msg-timeout=15m => serve msg-timeout=900000000000\n\
    nsqd --msg-timeout=60s => serve\n\
    nsqd --msg-timeout=1m => serve\n\
    nsqd --msg-timeout=16m --max-msg-timeout=20m => serve msg-timeout=960000000000 max-msg-timeout=1200000000000\n\
    nsqd --max-msg-timeout 20m --msg-timeout 16m => serve msg-timeout=960000000000 max-msg-timeout=1200000000000\n\
    nsqd --msg-timeout=1ms --max-msg-timeout=1ms => serve msg-timeout=1000000 max-msg-timeout=1000000\n\
    nsqd --max-msg-timeout=60s => serve max-msg-timeout=60000000000\n\
    nsqd --max-msg-timeout 8760h => serve max-msg-timeout=31536000000000000\n\
    nsqd --sync-timeout=1ms => serve sync-timeout=1000000\n\
    nsqd --sync-timeout 8760h => serve sync-timeout=31536000000000000\n\
    nsqd --max-req-timeout=1ms => serve max-req-timeout=1000000\n\
    nsqd --max-req-timeout 8760h => serve max-req-timeout=31536000000000000\n\
    nsqd --max-heartbeat-interval=1s => serve max-heartbeat-interval=1000000000\n\
    nsqd --max-heartbeat-interval 8760h => serve max-heartbeat-interval=31536000000000000";

/// Pairs in any order and number.
pub const PAIRS: &str = "\
    nsqd --sync-timeout=1h1h => serve sync-timeout=7200000000000\n\
    nsqd --sync-timeout=1h2m3s4ms => serve sync-timeout=3723004000000\n\
    nsqd --sync-timeout=4ms3s2m1h => serve sync-timeout=3723004000000\n\
    nsqd --sync-timeout=1s1ms1s => serve sync-timeout=2001000000\n\
    nsqd --sync-timeout=1m1s => serve sync-timeout=61000000000\n\
    nsqd --sync-timeout=1m1ms => serve sync-timeout=60001000000\n\
    nsqd --sync-timeout=0h0m0s1ms => serve sync-timeout=1000000\n\
    nsqd --sync-timeout=000000000001s => serve sync-timeout=1000000000\n\
    nsqd --sync-timeout=2000ms => serve\n\
    nsqd --max-heartbeat-interval=1000ms => serve max-heartbeat-interval=1000000000\n\
    nsqd --max-heartbeat-interval=999ms1ms => serve max-heartbeat-interval=1000000000";

/// Durations one beyond an end of a range, and what 64 bits would make of greater ones.
pub const BEYOND: &str = "\
    nsqd --msg-timeout=16m => unknown\n\
    nsqd --msg-timeout=15m1ms => unknown\n\
    nsqd --msg-timeout=0s => unknown\n\
    nsqd --max-msg-timeout=59s => unknown\n\
    nsqd --max-msg-timeout=0s => unknown\n\
    nsqd --max-msg-timeout=8760h1ms => unknown\n\
    nsqd --sync-timeout=0ms => unknown\n\
    nsqd --sync-timeout=8760h1ms => unknown\n\
    nsqd --max-req-timeout=0h => unknown\n\
    nsqd --max-req-timeout=8760h1ms => unknown\n\
    nsqd --max-heartbeat-interval=999ms => unknown\n\
    nsqd --max-heartbeat-interval=8760h1ms => unknown\n\
    nsqd --sync-timeout=18446744074710ms => unknown\n\
    nsqd --sync-timeout=18446744073s1s => unknown\n\
    nsqd --sync-timeout=999999999999h => unknown\n\
    nsqd --sync-timeout=18446744073s18446744074s => unknown";

/// Texts that are no durations.
pub const NO_DURATIONS: &str = "\
    nsqd --sync-timeout=5 => unknown\n\
    nsqd --sync-timeout=0 => unknown\n\
    nsqd --sync-timeout= => unknown\n\
    nsqd --sync-timeout=s => unknown\n\
    nsqd --sync-timeout=ms => unknown\n\
    nsqd --sync-timeout=1h30 => unknown\n\
    nsqd --sync-timeout=1hs => unknown\n\
    nsqd --sync-timeout=1mms => unknown\n\
    nsqd --sync-timeout=1mss => unknown\n\
    nsqd --sync-timeout=1.5h => unknown\n\
    nsqd --sync-timeout=1us => unknown\n\
    nsqd --sync-timeout=1ns => unknown\n\
    nsqd --sync-timeout=1d => unknown\n\
    nsqd --sync-timeout=1H => unknown\n\
    nsqd --sync-timeout=+1s => unknown\n\
    nsqd --sync-timeout=-1s => unknown\n\
    nsqd --sync-timeout=1s, => unknown\n\
    nsqd --sync-timeout=0000000000001s => unknown\n\
    nsqd --msg-timeout=x => unknown\n\
    nsqd --max-msg-timeout=x => unknown\n\
    nsqd --max-req-timeout=x => unknown\n\
    nsqd --max-heartbeat-interval=x => unknown";
