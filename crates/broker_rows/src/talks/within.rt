//! Writes that fail, and want of memory.

pub static ROWS: &'static str = "
a heartbeat that is cut short
        told: 0 1 began; 0 1 idle; 0 1 nop; 0 1 idle; 0 1 beat; 0 1 gone
        sent: Magic Nop
        got: CutHeartbeat
        ended WriteFault, not EndOfInput

a heartbeat that is written whole, and the write failed all the same
        told: 0 1 began; 0 1 idle; 0 1 nop; 0 1 idle; 0 1 beat; 0 1 gone
        sent: Magic Nop
        got: Heartbeat
        ended WriteFault, not EndOfInput

a write that failed where nothing was to be written
        told: 0 1 began; 0 1 idle; 0 1 nop; 0 1 idle; 0 1 gone
        sent: Magic Nop
        got:
        ended never, not WriteFault

a heartbeat that is cut short before the last
        told: 0 1 began; 0 1 idle; 0 1 nop; 0 1 idle; 0 1 beat; 0 1 beat; 0 1 gone
        sent: Magic Nop
        got: CutHeartbeat Heartbeat
        ended never, not WriteFault

the last of two heartbeats is cut short
        told: 0 1 began; 0 1 idle; 0 1 nop; 0 1 idle; 0 1 beat; 0 1 beat; 0 1 gone
        sent: Magic Nop
        got: Heartbeat CutHeartbeat
        ended WriteFault, not Memory

memory is wanting in a round
        told: 0 1 began; 0 1 idle; 0 1 nop; 0 1 idle; 0 1 gone
        sent: Magic Nop
        got: NoMemory
        ended Memory, not EndOfInput

memory is wanting, and the frame is cut short
        told: 0 1 began; 0 1 idle; 0 1 nop; 0 1 beat; 0 1 gone
        sent: Magic Nop
        got: Heartbeat CutNoMemory
        ended Memory, not EndOfInput

memory is wanting for the last entry's frame
        told: 0 1 began; 0 1 idle; 0 1 nop; 0 1 beat; 0 1 gone
        sent: Magic Nop
        got: NoMemory
        ended Memory, not WriteFault

memory is wanting for the last two frames
        told: 0 1 began; 0 1 idle; 0 1 nop; 0 1 beat; 0 1 beat; 0 1 gone
        sent: Magic Nop
        got: NoMemory
        ended never, not Memory

memory is wanting, and a byte follows
        told: 0 1 began; 0 1 idle; 0 1 nop; 0 1 gone
        sent: Magic Nop
        got: NoMemory X
        ended never, not Memory

memory is wanting at a command that was read
        told: 0 1 began; 0 1 idle; 0 1 gone
        sent: Magic Nop
        got: NoMemory
        ended Memory, not EndOfInput

memory is wanting, in the turn of Gone too
        told with two turns in want: 0 1 began; 0 1 idle; 0 1 nop
        sent: Magic Nop
        got: NoMemory
        ended Memory, not EndOfInput

a Gone missing though no turn wanted memory
        told: 0 1 began; 0 1 idle; 0 1 nop
        sent: Magic Nop
        got: NoMemory
        ended never, not Memory

memory is wanting before the connection began
        told with one turn in want:
        sent:
        got: NoMemory
        ended Memory, not EndOfInput

a Gone of a connection that never began
        told with one turn in want: 0 1 gone
        sent:
        got:
        ended never, not Memory

an answer is cut short as the connection is closed
        told: 0 1 began; 0 1 idle; 0 1 refused BadMagic 0 => E_BAD_PROTOCOL; 0 1 gone
        sent: BadMagic
        got: CutNoMemory
        ended Memory, not Closed
";
