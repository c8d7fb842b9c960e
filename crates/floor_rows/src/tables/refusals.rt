//! In which order a command is refused.

pub const ROWS: &str = "
a client without a channel
    1 begin => begun | began
    1 RDY 1 => E_INVALID not in this state, closes | did
    1 RDY 99999 => E_INVALID not in this state, closes | did
    1 FIN i0 => E_INVALID not in this state, closes | did
    1 TOUCH i0 => E_INVALID not in this state, closes | did
    1 REQ i0 0 => E_INVALID not in this state, closes | did
    1 CLS => E_INVALID not in this state, closes | did
    1 IDENTIFY [] => E_BAD_BODY bad JSON, closes | did
    1 DPUB t 3600001 x => E_INVALID bad delay, closes | did
    1 DPUB t -1 x => E_INVALID bad delay, closes | did
    1 NOP => quiet | did
    1 next => idle | idle
    0 stats => stats | asked

a subscribed client
    1 begin => begun | began
    1 SUB t c => OK | did
    1 SUB t d => E_INVALID not in this state, closes | did
    1 IDENTIFY [] => E_INVALID not in this state, closes | did
    1 IDENTIFY {} => E_INVALID not in this state, closes | did
    1 RDY 2501 => E_INVALID bad count, closes | did
    1 RDY -1 => E_INVALID bad count, closes | did
    1 RDY 2500 => quiet | did
    1 FIN i0 => E_FIN_FAILED message not in flight | did
    1 TOUCH i0 => E_TOUCH_FAILED message not in flight | did
    1 REQ i0 0 => E_REQ_FAILED message not in flight | did
    1 NOP => quiet | did
    0 stats => stats t [ c ( ready 2500 ) ] | asked
    1 CLS => CLOSE_WAIT | did

a closing client
    1 begin => begun | began
    1 PUB t x => OK | did
    1 PUB t y => OK | did
    1 SUB t c => OK | did
    1 RDY 1 => quiet | took t i0 x for c; copied t c i0 x; took t i1 y for c; copied t c i1 y; did
    1 next => sends i0*1 x | sent i0*1 x
    1 CLS => CLOSE_WAIT | did
    1 CLS => E_INVALID not in this state, closes | did
    1 SUB t c => E_INVALID not in this state, closes | did
    1 IDENTIFY {} => E_INVALID not in this state, closes | did
    1 RDY 99999 => quiet | did
    1 RDY -1 => quiet | did
    1 TOUCH i1 => E_TOUCH_FAILED message not in flight | did
    1 TOUCH i0 => quiet | did
    1 REQ i1 0 => E_REQ_FAILED message not in flight | did
    1 REQ i0 0 => quiet | did
    1 FIN i0 => E_FIN_FAILED message not in flight | did
    1 next => idle | idle
    1 PUB t z => OK | did
    0 stats => stats t messages 3 [ c depth 3 messages 3 requeued 1 ( ready 1 sent 1 requeued 1 ) ] | took t i2 z for c; copied t c i2 z; asked

another client's message is in flight for none but that one
    1 begin => begun | began
    1 PUB t x => OK | did
    1 SUB t c => OK | did
    2 begin => begun | took t i0 x for c; copied t c i0 x; began
    2 SUB t c => OK | did
    1 RDY 1 => quiet | did
    1 next => sends i0*1 x | sent i0*1 x
    2 FIN i0 => E_FIN_FAILED message not in flight | did
    2 TOUCH i0 => E_TOUCH_FAILED message not in flight | did
    2 REQ i0 0 => E_REQ_FAILED message not in flight | did
    1 FIN i0 => quiet | did

a bad delay comes before a disk that fails, and a message that isn't in flight too
    memory 0
    fails any 0 1000
    1 begin => begun | began
    1 DPUB t 3600001 x => E_INVALID bad delay, closes | did
    1 DPUB t 1000 x => E_DPUB_FAILED disk fault, closes | did, faulted 0
    1 SUB t c => OK | did
    1 REQ i0 0 => E_REQ_FAILED message not in flight | did
    1 PUB t x => E_PUB_FAILED disk fault, closes | did, faulted 0
    0 stats => stats t [ c ( ) ] | asked
";
