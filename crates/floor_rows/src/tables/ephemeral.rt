//! Topics and channels that are ephemeral.

pub const ROWS: &str = "
an ephemeral channel goes with its last client
    1 begin => begun | began
    1 SUB t c#ephemeral => OK | did
    2 begin => begun | began
    2 SUB t c#ephemeral => OK | did
    3 begin => begun | began
    3 SUB t d => OK | did
    1 gone => ended | gone
    0 names => names at 0 t [ c#ephemeral d ] | listed
    3 gone => ended | gone
    0 names => names at 0 t [ c#ephemeral d ] | listed
    2 gone => ended | gone
    0 names => names at 0 t [ d ] | listed

an ephemeral topic goes with its last channel
    1 begin => begun | began
    1 SUB t#ephemeral c => OK | did
    1 PUB t#ephemeral x => OK | did
    2 begin => begun | took t#ephemeral i0 x for c; copied t#ephemeral c i0 x; began
    2 SUB t#ephemeral d => OK | did
    1 gone => ended | gone
    0 names => names at 0 t#ephemeral [ d ] | listed
    2 gone => ended | gone
    0 names => names at 0 | listed
    3 begin => begun | began
    3 PUB t#ephemeral y => OK | did
    0 stats => stats t#ephemeral depth 1 messages 1 [ ] | asked

an ephemeral topic goes as its last channel is deleted, and its messages with it
    0 create t#ephemeral => done | asked
    0 create t#ephemeral a => done | asked
    0 create t#ephemeral b => done | asked
    0 pause t#ephemeral => done | asked
    1 begin => begun | began
    1 PUB t#ephemeral x => OK | did
    2 begin => begun | began
    2 SUB t#ephemeral b => OK | did
    0 delete t#ephemeral a => done | asked
    0 names => names at 0 t#ephemeral [ b ] | listed
    0 delete t#ephemeral b => done | asked
    0 names => names at 0 | listed
    2 next => deleted | dropped
    0 create t#ephemeral => done | asked
    0 create t#ephemeral a => done | asked
    0 create t#ephemeral b => done | asked
    0 delete t#ephemeral => done | asked
    0 names => names at 0 | listed

what finds no room is dropped, and uses an id all the same
    memory 1
    // Nothing of an ephemeral topic or channel is written.
    fails any 0 1000
    1 begin => begun | began
    1 MPUB t#ephemeral x y => OK | did
    0 stats => stats t#ephemeral depth 1 messages 1 [ ] | asked
    1 SUB t#ephemeral c => OK | did
    1 PUB t#ephemeral z => OK | took t#ephemeral i0 x for c; copied t#ephemeral c i0 x; did
    0 stats => stats t#ephemeral messages 2 [ c depth 1 messages 1 ( ) ] | took t#ephemeral i2 z for c; copied t#ephemeral c i2 z; asked
    0 delete t#ephemeral => done | asked

a message that waits on disk doesn't come to an ephemeral channel without room
    memory 0
    1 begin => begun | began
    1 PUB t x => OK | did
    1 gone => ended | gone
    2 begin => begun | began
    2 SUB t c#ephemeral => OK | did
    2 RDY 1 => quiet | took t i0 x for c#ephemeral; copied t c#ephemeral i0 x; did
    2 next => idle | idle
    0 stats => stats t messages 1 [ c#ephemeral ( ready 1 ) ] | asked
";
