//! Bytes of a client that are no command, and calls that don't fit their number.

pub const ROWS: &str = "
each fault of a client's bytes
    1 begin => begun | began
    1 bad magic => E_BAD_PROTOCOL, closes | refused
    1 bad length => E_INVALID line too long, closes | refused
    1 bad word => E_INVALID bad command, closes | refused
    1 bad topic => E_BAD_TOPIC bad topic name, closes | refused
    1 bad channel => E_BAD_CHANNEL bad channel name, closes | refused
    1 bad size => E_BAD_MESSAGE bad size, closes | refused
    1 bad body => E_BAD_BODY bad body, closes | refused

bytes with faults
    1 begin => begun | began
    1 XYZ => E_INVALID bad command, closes | refused
    1 RDY x => E_INVALID bad command, closes | refused
    1 FIN 1 => E_INVALID bad command, closes | refused
    1 PUB t! x => E_BAD_TOPIC bad topic name, closes | refused
    1 SUB t c! => E_BAD_CHANNEL bad channel name, closes | refused
    1 PUB t => E_BAD_MESSAGE bad size, closes | refused
    1 MPUB t => E_BAD_MESSAGE bad size, closes | refused
    1 IDENTIFY => E_BAD_BODY bad body, closes | refused
    0 names => names at 0 | listed

calls of a number that isn't there, and a second begin
    1 NOP => strange
    1 next => strange
    1 bad word => strange
    1 gone => strange
    1 begin => begun | began
    1 begin => strange
    2 NOP => strange
    1 NOP => quiet | did
    1 gone => ended | gone
    1 NOP => strange
    1 next => strange
    1 gone => strange
    0 names => names at 0 | listed

a strange call moves nothing
    1 begin => begun | began
    1 SUB t c => OK | did
    1 PUB t x => OK | did
    2 NOP => strange
    1 begin => strange
    1 NOP => quiet | took t i0 x for c; copied t c i0 x; did
";
