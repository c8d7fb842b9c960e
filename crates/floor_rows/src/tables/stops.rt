//! Stops, and how many moves a turn makes.

pub const ROWS: &str = "
behind a stop only a connection's beginning, its end and the names are noted
    1 begin => begun | began
    1 SUB t c => OK | did
    1 PUB t x => OK | did
    0 stop => stopping | took t i0 x for c; copied t c i0 x; stop
    1 RDY 1 => stopping
    1 next => stopping
    1 bad word => stopping
    0 stats => stopping
    0 create u => stopping
    0 delete t c => stopping
    0 publish t 0 y => stopping
    0 tick => stopping
    0 stop => stopping
    2 NOP => strange
    2 begin => begun | began
    2 NOP => stopping
    2 gone => ended | gone
    0 names => names at 0 t [ c ] | listed
    1 gone => ended | gone

a turn makes 64 moves, and a stop all that are due
    0 create t => done | asked
    0 create t c => done | asked
    1 begin => begun | began
    1 MPUB t a b c d e f g h i j k l m n o p q r s t u v w x y z a b c d e f g h i j k l m n o p q r s t u v w x y z a b c d e f g h i j k l m n o p q r s t u v w x y z => OK | did
    1 NOP => quiet | 64 moves; did
    0 stats => stats t depth 14 messages 78 [ c depth 64 messages 64 ] | 64 moves; asked
    0 stop => stopping | 28 moves; stop

a stop makes more than 64 moves
    0 create t => done | asked
    0 create t c => done | asked
    1 begin => begun | began
    1 MPUB t a b c d e f g h i j k l m n o p q r s t u v w x y z a b c d e f g h i j k l m n o p q r s t u v w x y z a b c d e f g h i j k l m n o p q r s t u v w x y z => OK | did
    0 stop => stopping | 156 moves; stop
    0 stop => stopping

a stop that a disk fault keeps from paying
    memory 0
    // The topic's record is written, and the channel's isn't.
    fails write-at 1 2
    0 create t => done | asked
    0 create t c => done | asked
    1 begin => begun | began
    1 PUB t x => OK | did
    0 stop => stopping | took t i0 x for c; copied t c i0 x, faulted 0; stop
    0 stop => stopping
    1 gone => ended | gone
    flush => fault
";
