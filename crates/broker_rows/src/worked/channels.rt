//! Channels that come one after another, that have no memory, that a client closes; what a client says of itself; and delays.

pub static ROWS: &'static str = r#"
three that wait go to the channel that comes first
        given: 0 1 began; 0 1 idle; 0 1 pub t 0 => OK; 0 1 pub t 1 => OK; 0 1 pub t 2 => OK; 0 1 idle; 0 1 gone; 0 2 began; 0 2 idle;
            0 2 sub t c1 => OK; 0 0 moved t c1 0 3; 0 2 idle; 0 2 gone; 0 3 began; 0 3 idle; 0 3 sub t c2 => OK; 0 3 idle; 0 3 gone
        then: 0 4 told t count 3 / c1 depth 3 count 3 / c2
        makes both: 1 EndOfInput: Magic PubA PubB PubC => Okay Okay Okay; 2 EndOfInput: Magic SubFirst => Okay;
            3 EndOfInput: Magic SubSecond => Okay

three that wait go to both channels
        given: 0 1 began; 0 1 idle; 0 1 pub t 0 => OK; 0 1 pub t 1 => OK; 0 1 pub t 2 => OK; 0 1 idle; 0 1 gone; 0 2 began; 0 2 idle;
            0 2 sub t c1 => OK; 0 0 moved t c1 0 3; 0 2 idle; 0 2 gone; 0 3 began; 0 3 idle; 0 3 sub t c2 => OK; 0 3 idle; 0 3 gone
        then: 0 4 told t count 3 / c1 depth 3 count 3 / c2 depth 3 count 3
        makes no history: 1 EndOfInput: Magic PubA PubB PubC => Okay Okay Okay; 2 EndOfInput: Magic SubFirst => Okay;
            3 EndOfInput: Magic SubSecond => Okay

without memory a message waits on disk, and is sent
        given no memory: 0 1 began; 0 1 idle; 0 1 pub t x => OK; 0 1 idle; 0 1 gone; 0 2 began; 0 2 idle
        then: 0 2 sub t c => OK; 0 0 moved t c x 1; 0 2 rdy 1; 0 2 sent x 1; 0 2 idle; 0 2 gone
        makes both: 1 EndOfInput: Magic PubX => Okay; 2 EndOfInput: Magic SubC Rdy1 => Okay GotX

without memory no message comes to an ephemeral channel
        given no memory: 0 1 began; 0 1 idle; 0 1 pub t x => OK; 0 1 idle; 0 1 gone; 0 2 began; 0 2 idle; 0 2 sub t c#ephemeral => OK;
            0 0 moved t c#ephemeral x 1; 0 2 rdy 1
        then: 0 2 idle; 0 2 gone
        makes both: 1 EndOfInput: Magic PubX => Okay; 2 EndOfInput: Magic SubEphemeral Rdy1 => Okay

without memory a message comes to an ephemeral channel
        given no memory: 0 1 began; 0 1 idle; 0 1 pub t x => OK; 0 1 idle; 0 1 gone; 0 2 began; 0 2 idle; 0 2 sub t c#ephemeral => OK;
            0 0 moved t c#ephemeral x 1; 0 2 rdy 1
        then: 0 2 sent x 1; 0 2 idle; 0 2 gone
        makes no history: 1 EndOfInput: Magic PubX => Okay; 2 EndOfInput: Magic SubEphemeral Rdy1 => Okay GotX

a client that closes gets no message, and its second CLS is refused
        given: 0 1 began; 0 1 idle; 0 1 pub t 0 => OK; 0 1 idle; 0 1 gone; 0 2 began; 0 2 idle; 0 2 sub t c => OK; 0 0 moved t c 0 1;
            0 2 rdy 1; 0 2 cls => CLOSE_WAIT
        then: 0 2 idle; 0 2 cls => E_INVALID not in this state; 0 2 gone
        makes both: 1 EndOfInput: Magic PubA => Okay; 2 Closed: Magic SubC Rdy1 Cls / Cls => Okay CloseWait WrongState

a client that closes gets a message
        given: 0 1 began; 0 1 idle; 0 1 pub t 0 => OK; 0 1 idle; 0 1 gone; 0 2 began; 0 2 idle; 0 2 sub t c => OK; 0 0 moved t c 0 1;
            0 2 rdy 1; 0 2 cls => CLOSE_WAIT
        then: 0 2 sent 0 1; 0 2 idle; 0 2 cls => E_INVALID not in this state; 0 2 gone
        makes no history: 1 EndOfInput: Magic PubA => Okay; 2 Closed: Magic SubC Rdy1 Cls / Cls => Okay CloseWait GotA WrongState

a client that negotiates gets the features
        given: 0 1 began; 0 1 idle
        then: 0 1 identify {"feature_negotiation":true} => FEATURES; 0 1 idle; 0 1 gone
        makes both: 1 EndOfInput: Magic Negotiate => Features

a client that negotiates gets features with another number
        given: 0 1 began; 0 1 idle
        then: 0 1 identify {"feature_negotiation":true} => FEATURES; 0 1 idle; 0 1 gone
        makes no talk: 1 EndOfInput: Magic Negotiate => OtherFeatures

a client that says nothing of itself gets OK
        given: 0 1 began; 0 1 idle
        then: 0 1 identify {} => OK; 0 1 idle; 0 1 gone
        makes both: 1 EndOfInput: Magic SayNothing => Okay

a client that says an array is refused and closed
        given: 0 1 began; 0 1 idle
        then: 0 1 identify [] => E_BAD_BODY bad JSON; 0 1 gone
        makes both: 1 Closed: Magic SayArray => BadJson

a client that says an array gets OK
        given: 0 1 began; 0 1 idle
        then: 0 1 identify [] => OK; 0 1 idle; 0 1 gone
        makes no history: 1 EndOfInput: Magic SayArray => Okay

a message with a delay waits after it, and one with a longer delay is refused
        given: 0 3 create t => done; 0 4 create t c => done; 0 1 began; 0 1 idle; 0 1 dpub t 1000 late => OK; 0 0 took t late 1s c;
            0 0 copied t c late 1s; 0 1 idle; 0 5 told t count 1 / c deferred 1 count 1
        then: 1s 0 came-due t c late; 1s 6 told t count 1 / c depth 1 count 1; 1s 1 dpub t 3600001 late => E_INVALID bad delay; 1s 1 gone
        makes both: 1 Closed: Magic DpubSecond / DpubTooLong => Okay BadDelay

a message with a delay waits one nanosecond before its end
        given: 0 3 create t => done; 0 4 create t c => done; 0 1 began; 0 1 idle; 0 1 dpub t 1000 late => OK; 0 0 took t late 1s c;
            0 0 copied t c late 1s; 0 1 idle; 0 5 told t count 1 / c deferred 1 count 1
        then: 1s-1 0 came-due t c late; 1s 6 told t count 1 / c depth 1 count 1; 1s 1 dpub t 3600001 late => E_INVALID bad delay; 1s 1 gone
        makes no history: 1 Closed: Magic DpubSecond / DpubTooLong => Okay BadDelay
"#;
