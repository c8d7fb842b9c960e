//! Rounds and how conversations end.

pub static ROWS: &'static str = "
64 sent, and then a read
        told: 0 1 began; 0 1 beats 64; 0 1 nop; 0 1 idle; 0 1 gone
        sent: Magic Nop
        got: Heartbeat*64
        ended EndOfInput, not Closed

65 sent in a round
        told: 0 1 began; 0 1 beats 65; 0 1 nop; 0 1 idle; 0 1 gone
        sent: Magic Nop
        got: Heartbeat*65
        ended never, not EndOfInput

65 sent in two rounds
        told: 0 1 began; 0 1 beats 65; 0 1 idle; 0 1 nop; 0 1 idle; 0 1 gone
        sent: Magic Nop
        got: Heartbeat*65
        ended EndOfInput, not Closed

63 sent, and then a read without an Idle
        told: 0 1 began; 0 1 beats 63; 0 1 nop; 0 1 idle; 0 1 gone
        sent: Magic Nop
        got: Heartbeat*63
        ended never, not EndOfInput

the end behind 64 sent
        told: 0 1 began; 0 1 beats 64; 0 1 gone
        sent:
        got: Heartbeat*64
        ended EndOfInput, not Closed

an Idle missing at the end
        told: 0 1 began; 0 1 gone
        sent:
        got:
        ended never, not EndOfInput

an Idle missing behind the last command
        told: 0 1 began; 0 1 idle; 0 1 nop; 0 1 gone
        sent: Magic Nop
        got:
        ended never, not ReadFault

a read that failed
        told: 0 1 began; 0 1 idle; 0 1 nop; 0 1 idle; 0 1 gone
        sent: Magic Nop
        got:
        ended ReadFault, not Closed

a Gone missing at the end of input
        told: 0 1 began; 0 1 idle
        sent:
        got:
        ended never, not EndOfInput

a Gone missing as its turn wanted memory
        told with one turn in want: 0 1 began; 0 1 idle
        sent:
        got:
        ended EndOfInput, not Closed

a Gone missing at a closed connection
        told with one turn in want: 0 1 began; 0 1 idle; 0 1 refused BadMagic 0 => E_BAD_PROTOCOL
        sent: BadMagic
        got: BadProtocol
        ended never, not Closed

a Stop that closes the connection in the middle of a round
        told with a stop: 0 1 began; 0 1 idle; 0 1 sub t c => OK; 0 1 gone
        sent: Magic SubC Rdy1
        got: Okay
        ended Closed, not EndOfInput

no Stop that closes it
        told: 0 1 began; 0 1 idle; 0 1 sub t c => OK; 0 1 gone
        sent: Magic SubC Rdy1
        got: Okay
        ended never, not Closed

a channel that was deleted, seen before a sending
        told: 0 1 began; 0 1 idle; 0 1 sub t c => OK; 0 1 rdy 1; 0 1 dropped; 0 1 gone
        sent: Magic SubC Rdy1
        got: Okay
        ended Closed, not EndOfInput

a channel that was deleted, seen at a command
        told: 0 1 began; 0 1 idle; 0 1 sub t c => OK; 0 1 rdy 1; 0 1 idle; 0 1 dropped; 0 1 gone
        sent: Magic SubC Rdy1 / Nop
        got: Okay
        ended Closed, not EndOfInput

an entry behind the one that closes
        told: 0 1 began; 0 1 idle; 0 1 refused BadMagic 0 => E_BAD_PROTOCOL; 0 1 idle; 0 1 gone
        sent: BadMagic
        got: BadProtocol
        ended never, not Closed

a byte behind the answer that closes
        told: 0 1 began; 0 1 idle; 0 1 refused BadMagic 0 => E_BAD_PROTOCOL; 0 1 gone
        sent: BadMagic
        got: BadProtocol X
        ended never, not Closed

a frame at the end of a silent client
        told: 0 1 began; 0 1 idle; 0 1 nop; 0 1 idle; 0 1 silent; 0 1 gone
        sent: Magic Nop
        got: Heartbeat
        ended never, not Closed

a client that is silent at a command
        told: 0 1 began; 0 1 idle; 0 1 nop; 0 1 idle; 0 1 nop; 0 1 silent; 0 1 gone
        sent: Magic Nop / Nop
        got:
        ended Closed, not EndOfInput
";
