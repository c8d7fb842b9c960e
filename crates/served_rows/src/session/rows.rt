//! Connections from their first byte to their end: how each ends, what is written, and the order of turns, reads and writes.

use super::served::{case_of, check, goes, write_all};
use crate::lists::{push, put};
use std::alloc::Global;
use std::process::Abort;
use std::sync::Wait;

// How a connection ends; what comes between commands, faults and goings; where memory is wanting; rounds of pushes and pieces; pieces that complete many
// commands.
static ROWS: &'static str = r#"
a connection that ends at once||big|bnrg|end
a command is answered|  V2PUB t\n\0\0\0\x02hi/|bioig|bnrcwnrg|end|o
the first read fails||big|bnrg|read fault||read 0
the read behind a command fails|  V2PUB t\n\0\0\0\x02hi/|bioig|bnrcwnrg|read fault|o|read 1
a reply isn't written|  V2PUB t\n\0\0\0\x02hi/|biog|bnrcwg|write fault||write 0
a second message isn't written||bmmg|bnwnwg|write fault|m|write 1
a heartbeat isn't written||bhg|bnwg|write fault||write 0
a client that is silent||blg|bng|closed
a channel that is deleted||bdg|bng|closed
a channel that is deleted behind a message||bmdg|bnwng|closed|m
a daemon that stops before a send||bsg|bng|closed
a channel that is deleted before a command|  V2PUB t\n\0\0\0\x02hi/|bidg|bnrcg|closed
a daemon that stops before a command|  V2PUB t\n\0\0\0\x02hi/|bisg|bnrcg|closed
a reply that closes is the last|  V2NOP\nNOP\n/|bieg|bnrcwg|closed|e
an error that leaves the connection open|  V2NOP\nNOP\n/|bifqig|bnrcwcnrg|end|f
a bad magic is refused|  V1NOP\n/|bieg|bnrfwg|closed|e
a bad word behind a command is refused|  V2NOP\nNAP\nNOP\n/|biqeg|bnrcfwg|closed|e
too great a size is refused before its body comes|  V2PUB t\n\0\0\0\x06/|bieg|bnrfwg|closed|e
a daemon that stops before a refusal|  V1NOP\n/|bisg|bnrfg|closed
a cut body gets no answer|  V2PUB t\n\0\0\0\x02h/|biig|bnrnrg|end
a client that is there already||x|b|closed
a client that isn't there before a send||bxg|bng|closed
a client that isn't there before a command|  V2PUB t\n\0\0\0\x02hi/|bixg|bnrcg|closed
a client that isn't there as it goes||bix|bnrg|end
no memory as the connection begins|||bw|memory|-
no memory before a send||b-g|bnwg|memory|-
no memory for a command|  V2PUB t\n\0\0\0\x02hi/|bi-g|bnrcwg|memory|-
no memory for a refusal|  V1NOP\n/|bi-g|bnrfwg|memory|-
no memory as a connection goes that ended||bi|bnrg|end|||once
no memory as a closed connection goes||bl|bng|memory|||once
no memory as a connection goes after a reply that closes|  V2PUB t\n\0\0\0\x02hi/|bie|bnrcwg|memory|e||once
no memory as a connection goes whose read failed||bi|bnrg|read fault||read 0|once
no memory as a connection goes whose write failed|  V2PUB t\n\0\0\0\x02hi/|bio|bnrcwg|write fault||write 0|once
no memory before a send, and none as it goes||b-|bnwg|memory|-||once
64 messages are a round|  V2NOP\n/|b+m*64+qig|b+nw*64+rcnrg|end|m*64
the 65th message waits for a read|  V2NOP\n/|b+m*64+qmig|b+nw*64+rcnwnrg|end|m*65
200 messages are four rounds|  V2NOP\n/NOP\n/NOP\n/|b+m*64+q+m*64+q+m*64+q+m*8+ig|b+nw*64+rc+nw*64+rc+nw*64+rc+nw*8+nrg|end|m*200
64 heartbeats are a round|  V2NOP\n/|b+h*64+qig|b+nw*64+rcnrg|end|h*64
a full round, a read that gives nothing, and a full round|/|b+m*128+g|b+nw*64+r+nw*64+rg|end|m*128
a heartbeat before a message||bhmig|bnwnwnrg|end|hm
reads that give nothing|//|biiig|bnrnrnrg|end
a command over two pieces, with a message between|  V2PUB t\n\0\0/\0\x02hi/|bimioig|bnrnwnrcwnrg|end|mo
two commands, with a message between their pieces|  V2PUB t\n\0\0\0\x02hi/PUB t\n\0\0\0\x02ho/|biomioig|bnrcwnwnrcwnrg|end|omo
a command of single bytes| / /V/2/N/O/P/\n/|biiiiiiiiqig|b+nr*8+cnrg|end
one piece completes 24 commands|  V2+NOP\n*24/|bi+q*24+ig|bnr+c*24+nrg|end
one piece completes 1,000 commands, and nothing is written|  V2+NOP\n*1000/|bi+q*1000+ig|bnr+c*1000+nrg|end
one piece completes 1,000 commands, and each reply is written before the next|  V2+PUB t\n\0\0\0\x01a*1000/|bi+o*1000+ig|bnr+cw*1000+nrg|end|o*1000
a batch of FINs takes one read and no write|  V2/FIN 0000010000000000\n*780/|bii+q*780+ig|bnrnr+c*780+nrg|end
of 1,000 commands the 500th closes|  V2+NOP\n*1000/|bi+q*499+eg|bnr+c*499+cwg|closed|e
of 1,000 commands the 1,000th finds no memory|  V2+NOP\n*1000/|bi+q*999+-g|bnr+c*999+cwg|memory|-
more than one read takes|  V2+NOP\n*4200/|bi+q*4095+i+q*105+ig|bnr+c*4095+nr+c*105+nrg|end
more than one read takes, which ends inside a command|  V2+TOUCH 0000010000000000\n*800/|bi+q*712+mi+q*88+ig|bnr+c*712+nwnr+c*88+nrg|end|m
"#;

// Whether a heartbeat in this place of a full round goes out there, as one of its 64.
fn beats<R: Abort + Wait>(rt: &R, alloc: Global, place: usize) -> bool {
    let mut case = case_of(rt, alloc, "a full round|  V2NOP\\n/|b|b+nw*64+rcnrg|end");
    for at in 0..64 {
        push(rt, &mut case.script, if at == place { b'h' } else { b'm' });
    }
    write_all(rt, &mut case);
    put(rt, &mut case.script, b"qig");
    let beats = goes(rt, alloc, &case);
    drop(case);
    beats
}

#[test]
fn rows(rt: HostRuntime) {
    for row in ROWS.trim().split('\n') {
        let case = case_of(&rt, rt.alloc(), row);
        let holds = goes(&rt, rt.alloc(), &case);
        drop(case);
        check(&rt, holds, row);
    }
}

#[test]
fn heartbeats(rt: HostRuntime) {
    for place in 0..64 {
        let beats = beats(&rt, rt.alloc(), place);
        assert!(rt; beats, "a heartbeat in place {} of a round", place);
    }
}
