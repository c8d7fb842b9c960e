//! Entries and bytes that are no conversation.

pub static ROWS: &'static str = "
messages that come out of order
        told: 0 1 began; 0 1 idle; 0 1 sub t c => OK; 0 1 rdy 2; 0 1 sent 0 1; 0 1 sent 1 1; 0 1 idle; 0 1 gone
        sent: Magic SubC Rdy2
        got: Okay GotB GotA
        ended never, not EndOfInput

an error before the message that came first
        told: 0 1 began; 0 1 idle; 0 1 sub t c => OK; 0 1 rdy 1; 0 1 sent 0 1; 0 1 idle;
            0 1 fin 0 => E_FIN_FAILED message not in flight; 0 1 idle; 0 1 gone
        sent: Magic SubC Rdy1 / Fin0
        got: Okay NotFinished GotA
        ended never, not EndOfInput

a message whose sending has no entry
        told: 0 1 began; 0 1 idle; 0 1 sub t c => OK; 0 1 rdy 1; 0 1 idle; 0 1 gone
        sent: Magic SubC Rdy1
        got: Okay GotA
        ended never, not EndOfInput

a sending whose message isn't written
        told: 0 1 began; 0 1 idle; 0 1 sub t c => OK; 0 1 rdy 1; 0 1 sent 0 1; 0 1 idle; 0 1 gone
        sent: Magic SubC Rdy1
        got: Okay
        ended never, not EndOfInput

a message that says fewer attempts than its entry
        told: 0 1 began; 0 1 idle; 0 1 sub t c => OK; 0 1 rdy 1; 0 1 sent 0 2; 0 1 idle; 0 1 gone
        sent: Magic SubC Rdy1
        got: Okay GotA
        ended never, not EndOfInput

a command that is read before the round rests
        told: 0 1 began; 0 1 nop; 0 1 idle; 0 1 gone
        sent: Magic Nop
        got:
        ended never, not EndOfInput

a second command that is read before its round rests
        told: 0 1 began; 0 1 idle; 0 1 nop; 0 1 nop; 0 1 idle; 0 1 gone
        sent: Magic Nop / Nop
        got:
        ended never, not EndOfInput

a command that is taken twice
        told: 0 1 began; 0 1 idle; 0 1 nop; 0 1 nop; 0 1 idle; 0 1 gone
        sent: Magic Nop
        got:
        ended never, not EndOfInput

a command that isn't taken before the next round
        told: 0 1 began; 0 1 idle; 0 1 idle; 0 1 gone
        sent: Magic Nop
        got:
        ended never, not EndOfInput

another command than the bytes spell
        told: 0 1 began; 0 1 idle; 0 1 sub t c => OK; 0 1 rdy 1; 0 1 idle; 0 1 gone
        sent: Magic SubC Rdy2
        got: Okay
        ended never, not EndOfInput

a command without its bytes
        told: 0 1 began; 0 1 idle; 0 1 nop; 0 1 idle; 0 1 gone
        sent: Magic
        got:
        ended never, not EndOfInput

a piece that isn't read
        told: 0 1 began; 0 1 idle; 0 1 nop; 0 1 idle; 0 1 gone
        sent: Magic Nop / Nop
        got:
        ended never, not EndOfInput

an empty piece
        told: 0 1 began; 0 1 idle; 0 1 idle; 0 1 gone
        sent: Empty
        got:
        ended never, not EndOfInput

a piece longer than a read gives
        told: 0 1 began; 0 1 idle; 0 1 idle; 0 1 gone
        sent: TooLong
        got:
        ended never, not EndOfInput

a bad word that is refused at another place
        told: 0 1 began; 0 1 idle; 0 1 idle; 0 1 nop; 0 1 refused BadWord 4 => E_INVALID bad command; 0 1 gone
        sent: Magic / Nop BadWord
        got: BadCommand
        ended never, not Closed

a bad word that is refused before the command that stands first
        told: 0 1 began; 0 1 idle; 0 1 idle; 0 1 refused BadWord 8 => E_INVALID bad command; 0 1 gone
        sent: Magic / Nop BadWord
        got: BadCommand
        ended never, not Closed

a wrong magic that isn't refused
        told: 0 1 began; 0 1 idle; 0 1 idle; 0 1 gone
        sent: BadMagic
        got:
        ended never, not EndOfInput

a disk fault that is answered OK
        told: 0 1 began; 0 1 idle; 0 1 faulted 0 dpub t 1000 3 => OK; 0 1 gone
        sent: Magic DpubSecond
        got: Okay
        ended never, not Closed

a conversation that never began
        told: 0 1 idle; 0 1 gone
        sent:
        got:
        ended never, not EndOfInput

the daemon's stuck entry in place of an Idle
        told: 0 1 began; 0 1 stuck t; 0 1 nop; 0 1 idle; 0 1 gone
        sent: Magic Nop
        got:
        ended never, not EndOfInput

a Ticked among the connection's own
        told: 0 1 began; 0 1 idle; 0 1 nop; 0 1 ticked; 0 1 idle; 0 1 gone
        sent: Magic Nop
        got:
        ended never, not EndOfInput
";
