//! Conversations as they go.

pub static ROWS: &'static str = r#"
two of three messages are sent within RDY, and the third behind a FIN
        told: 0 1 began; 0 1 idle; 0 1 sub t c => OK; 0 1 rdy 2; 0 1 sent 0 1; 0 1 sent 1 1; 0 1 idle; 0 1 fin 0; 0 1 sent 2 1;
            0 1 idle; 0 1 gone
        sent: Magic SubC Rdy2 / Fin0
        got: Okay GotA GotB GotC
        ended EndOfInput, not Closed

five of six are sent; RDY falls to 1, and the sixth is sent behind the fifth FIN alone
        told: 0 1 began; 0 1 idle; 0 1 sub t c => OK; 0 1 rdy 5; 0 1 sent 0 1; 0 1 sent 1 1; 0 1 sent 2 1; 0 1 sent 3 1; 0 1 sent 4 1;
            0 1 idle; 0 1 rdy 1; 0 1 fin 0; 0 1 fin 1; 0 1 fin 2; 0 1 fin 3; 0 1 idle; 0 1 fin 4; 0 1 sent 5 1; 0 1 idle; 0 1 gone
        sent: Magic SubC Rdy5 / Rdy1 Fin0 Fin1 Fin2 Fin3 / Fin4
        got: Okay GotA GotB GotC GotD GotE GotF
        ended EndOfInput, not Closed

a FIN that fails leaves the connection open, and a NOP behind it is taken
        told: 0 1 began; 0 1 idle; 0 1 sub t c => OK; 0 1 rdy 1; 0 1 sent 0 1; 0 1 idle; 0 1 fin 0;
            0 1 fin 0 => E_FIN_FAILED message not in flight; 0 1 nop; 0 1 idle; 0 1 gone
        sent: Magic SubC Rdy1 / Fin0 Fin0 Nop
        got: Okay GotA NotFinished
        ended EndOfInput, not Closed

a message that timed out isn't finished, and is sent once more
        told: 0 1 began; 0 1 idle; 0 1 sub t c => OK; 0 1 rdy 1; 0 1 sent 0 1; 0 1 idle;
            0 1 fin 0 => E_FIN_FAILED message not in flight; 0 1 sent 0 2; 0 1 idle; 0 1 gone
        sent: Magic SubC Rdy1 / Fin0
        got: Okay GotA NotFinished AgainA
        ended EndOfInput, not Closed

messages are given back without an answer
        told: 0 1 began; 0 1 idle; 0 1 sub t c => OK; 0 1 rdy 2; 0 1 sent 0 1; 0 1 sent 1 1; 0 1 idle; 0 1 rdy 0; 0 1 req 0 0;
            0 1 req 1 99999999; 0 1 idle; 0 1 gone
        sent: Magic SubC Rdy2 / Rdy0 Req0 Req1TooLong
        got: Okay GotA GotB
        ended EndOfInput, not Closed

a subscription without RDY gets nothing
        told: 0 1 began; 0 1 idle; 0 1 sub t c1 => OK; 0 1 idle; 0 1 gone
        sent: Magic SubFirst
        got: Okay
        ended EndOfInput, not Closed

an ephemeral channel has no room, so no message comes
        told: 0 1 began; 0 1 idle; 0 1 sub t c#ephemeral => OK; 0 1 rdy 1; 0 1 idle; 0 1 gone
        sent: Magic SubEphemeral Rdy1
        got: Okay
        ended EndOfInput, not Closed

a message is given back for later, and the client ends
        told: 0 1 began; 0 1 idle; 0 1 sub t c => OK; 0 1 rdy 2; 0 1 sent 0 1; 0 1 sent 1 1; 0 1 idle; 0 1 rdy 1; 0 1 req 0 5000;
            0 1 idle; 0 1 gone
        sent: Magic SubC Rdy2 / Rdy1 Req0Later
        got: Okay GotA GotB
        ended EndOfInput, not Closed

a client that negotiates gets the features
        told: 0 1 began; 0 1 idle; 0 1 identify {"feature_negotiation":true} => FEATURES; 0 1 idle; 0 1 gone
        sent: Magic Negotiate
        got: Features
        ended EndOfInput, not Closed

a client that says nothing of itself gets OK
        told: 0 1 began; 0 1 idle; 0 1 identify {} => OK; 0 1 idle; 0 1 gone
        sent: Magic SayNothing
        got: Okay
        ended EndOfInput, not Closed

a client that says an array is closed
        told: 0 1 began; 0 1 idle; 0 1 identify [] => E_BAD_BODY bad JSON; 0 1 gone
        sent: Magic SayArray
        got: BadJson
        ended Closed, not EndOfInput

a heartbeat, and the end of a silent client, without a frame
        told: 0 1 began; 0 1 idle; 0 1 nop; 0 1 idle; 0 1 beat; 0 1 idle; 0 1 silent; 0 1 gone
        sent: Magic Nop
        got: Heartbeat
        ended Closed, not EndOfInput

a client that closes gets no message, and a second CLS closes the connection
        told: 0 1 began; 0 1 idle; 0 1 sub t c => OK; 0 1 rdy 1; 0 1 cls => CLOSE_WAIT; 0 1 idle;
            0 1 cls => E_INVALID not in this state; 0 1 gone
        sent: Magic SubC Rdy1 Cls / Cls
        got: Okay CloseWait WrongState
        ended Closed, not EndOfInput

a delay beyond the greatest closes the connection
        told: 0 1 began; 0 1 idle; 0 1 dpub t 1000 3 => OK; 0 1 idle; 0 1 dpub t 3600001 3 => E_INVALID bad delay; 0 1 gone
        sent: Magic DpubSecond / DpubTooLong
        got: Okay BadDelay
        ended Closed, not EndOfInput

a message that a disk fault kept off is no Idle, and the round reads all the same
        told: 0 1 began; 0 1 idle; 0 1 sub t c => OK; 0 1 rdy 1; 0 1 stuck t c; 0 1 nop; 0 1 idle; 0 1 gone
        sent: Magic SubC Rdy1 / Nop
        got: Okay
        ended EndOfInput, not Closed

the magic alone, and then a command in two pieces
        told: 0 1 began; 0 1 idle; 0 1 idle; 0 1 idle; 0 1 nop; 0 1 idle; 0 1 gone
        sent: Magic / No / P
        got:
        ended EndOfInput, not Closed

a bad word behind a command
        told: 0 1 began; 0 1 idle; 0 1 idle; 0 1 nop; 0 1 refused BadWord 8 => E_INVALID bad command; 0 1 gone
        sent: Magic / Nop BadWord
        got: BadCommand
        ended Closed, not EndOfInput

a wrong magic
        told: 0 1 began; 0 1 idle; 0 1 refused BadMagic 0 => E_BAD_PROTOCOL; 0 1 gone
        sent: BadMagic
        got: BadProtocol
        ended Closed, not EndOfInput

a publish with a delay that met a disk fault closes the connection
        told: 0 1 began; 0 1 idle; 0 1 faulted 0 dpub t 1000 3 => OK; 0 1 gone
        sent: Magic DpubSecond
        got: DiskFault
        ended Closed, not EndOfInput

a publish that met a disk fault closes the connection
        told: 0 1 began; 0 1 idle; 0 1 faulted 0 pub t 3 => OK; 0 1 gone
        sent: Magic PubD
        got: PublishDiskFault
        ended Closed, not EndOfInput

a publish of a list that met a disk fault closes the connection
        told: 0 1 began; 0 1 idle; 0 1 faulted 0 mpub t 3 1 => OK; 0 1 gone
        sent: Magic MpubD
        got: ListDiskFault
        ended Closed, not EndOfInput

the text of a publish in place of that of a list
        told: 0 1 began; 0 1 idle; 0 1 faulted 0 mpub t 3 1 => OK; 0 1 gone
        sent: Magic MpubD
        got: PublishDiskFault
        ended never, not Closed

a REQ that met a disk fault leaves the connection open
        told: 0 1 began; 0 1 idle; 0 1 sub t c => OK; 0 1 rdy 1; 0 1 sent 0 1; 0 1 idle; 0 1 faulted 0 req 0 0; 0 1 idle; 0 1 gone
        sent: Magic SubC Rdy1 / Req0
        got: Okay GotA ReqDiskFault
        ended EndOfInput, not Closed
"#;
