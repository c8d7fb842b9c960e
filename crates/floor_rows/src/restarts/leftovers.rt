//! What a clean run leaves, and the next one finds.

pub const ROWS: &str = r#"
messages that wait and copies that are queued, in flight and deferred, with pauses and what is ephemeral
    memory 2
    open
    0 create t => done
    0 create t a => done
    0 create t b => done
    1 begin => begun
    1 MPUB t x y z => OK
    1 DPUB t 60000 w => OK
    1 SUB t a => OK
    1 RDY 2 => quiet
    1 next => sends i0*1 x
    1 next => sends i1*1 y
    0 pause t b => done
    2 begin => begun
    2 SUB t c#ephemeral => OK
    3 begin => begun
    3 SUB e#ephemeral d => OK
    3 PUB e#ephemeral u => OK
    0 pause t => done
    1 PUB t v => OK
    0 stats => stats e#ephemeral messages 1 [ d depth 1 messages 1 ] t depth 1 messages 5 paused [ a depth 1 disk 1 deferred 1 flying 2 messages 4 b depth 3 disk 1 deferred 1 messages 4 paused c#ephemeral ]
    0 stop => stopping
    shut => clean
    leaves nsqd.dat {"id_epoch":1,"topics":[{"channels":[{"name":"a","paused":false},{"name":"b","paused":true}],"name":"t","paused":true}],"version":"1.0.0"}
    open
    0 names => names t [ a b ]
    0 stats => stats t depth 1 disk 1 paused [ a depth 4 disk 4 b depth 4 disk 4 paused ]
    1 begin => begun
    1 SUB t a => OK
    1 RDY 9 => quiet
    1 next => sends i2*1 z
    1 next => sends i0*2 x
    1 next => sends i1*2 y
    1 next => sends i3*1 w
    1 next => idle
    2 begin => begun
    2 SUB t b => OK
    2 RDY 9 => quiet
    2 next => idle
    0 unpause t b => done
    2 next => sends i2*1 z
    2 next => sends i0*1 x
    2 next => sends i1*1 y
    2 next => sends i3*1 w
    2 next => idle
    0 unpause t => done
    2 next => sends i5*1 v
    1 next => sends i5*1 v
    1 FIN i5 => quiet
    0 stop => stopping
    shut => clean
    open
    0 stats => stats t [ a depth 4 disk 4 b depth 5 disk 5 ]
    shut => clean

a message that is owed to one channel still goes back to its topic, and is taken for all of them again
    open
    0 create t => done
    0 create t a => done
    0 create t b => done
    0 create t c => done
    0 create t d => done
    1 begin => begun
    1 MPUB t a b c d e f g h i j k l m => OK
    0 stats => stats t messages 13 [ a depth 13 messages 13 b depth 13 messages 13 c depth 13 messages 13 d depth 12 messages 12 ]
    shut => clean
    open
    1 begin => begun
    0 stats => stats t [ a depth 14 disk 13 messages 1 b depth 14 disk 13 messages 1 c depth 14 disk 13 messages 1 d depth 13 disk 12 messages 1 ]
    1 SUB t a => OK
    1 RDY 99 => quiet
    1 next => sends ic*1 m
    1 next => sends i0*1 a
    1 next => sends i1*1 b
    1 next => sends i2*1 c
    1 next => sends i3*1 d
    1 next => sends i4*1 e
    1 next => sends i5*1 f
    1 next => sends i6*1 g
    1 next => sends i7*1 h
    1 next => sends i8*1 i
    1 next => sends i9*1 j
    1 next => sends ia*1 k
    1 next => sends ib*1 l
    1 next => idle
    0 stop => stopping
    shut => clean; held t a ic
    open
    0 stats => stats t [ a depth 14 disk 14 b depth 14 disk 14 c depth 14 disk 14 d depth 13 disk 13 ]
    shut => clean
"#;
