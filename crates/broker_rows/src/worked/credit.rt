//! Messages as credit allows, and FIN of what isn't in flight any more.

pub static ROWS: &'static str = "
two of three messages are sent, and the third behind a FIN
        given: 0 1 began; 0 1 idle; 0 1 pub t 0 => OK; 0 1 pub t 1 => OK; 0 1 pub t 2 => OK; 0 1 idle; 0 1 gone; 0 2 began; 0 2 idle;
            0 2 sub t c => OK; 0 0 moved t c 0 3; 0 2 rdy 2; 0 2 sent 0 1; 0 2 sent 1 1; 0 2 idle
        then: 0 2 fin 0; 0 2 sent 2 1; 0 2 idle; 0 2 gone
        makes both: 1 EndOfInput: Magic PubA PubB PubC => Okay Okay Okay; 2 EndOfInput: Magic SubC Rdy2 / Fin0 => Okay GotA GotB GotC

the client gets another letter than was published
        given: 0 1 began; 0 1 idle; 0 1 pub t 0 => OK; 0 1 pub t 1 => OK; 0 1 pub t 2 => OK; 0 1 idle; 0 1 gone; 0 2 began; 0 2 idle;
            0 2 sub t c => OK; 0 0 moved t c 0 3; 0 2 rdy 2; 0 2 sent 0 1; 0 2 sent 1 1; 0 2 idle
        then: 0 2 fin 0; 0 2 sent 2 1; 0 2 idle; 0 2 gone
        makes no talk: 1 EndOfInput: Magic PubA PubB PubC => Okay Okay Okay;
            2 EndOfInput: Magic SubC Rdy2 / Fin0 => Okay GotA OtherB GotC

the client's first turn finds nothing to send, and doesn't say so
        given: 0 1 began; 0 1 idle; 0 1 pub t 0 => OK; 0 1 pub t 1 => OK; 0 1 pub t 2 => OK; 0 1 idle; 0 1 gone; 0 2 began;
            0 2 sub t c => OK; 0 0 moved t c 0 3; 0 2 rdy 2; 0 2 sent 0 1; 0 2 sent 1 1; 0 2 idle
        then: 0 2 fin 0; 0 2 sent 2 1; 0 2 idle; 0 2 gone
        makes no talk: 1 EndOfInput: Magic PubA PubB PubC => Okay Okay Okay; 2 EndOfInput: Magic SubC Rdy2 / Fin0 => Okay GotA GotB GotC

after a lower RDY four FINs bring nothing, and the fifth the sixth message
        given: 0 1 began; 0 1 idle; 0 1 mpub t 0 6 => OK; 0 1 idle; 0 1 gone; 0 2 began; 0 2 idle; 0 2 sub t c => OK; 0 0 moved t c 0 6;
            0 2 rdy 5; 0 2 sent 0 1; 0 2 sent 1 1; 0 2 sent 2 1; 0 2 sent 3 1; 0 2 sent 4 1; 0 2 idle; 0 2 rdy 1; 0 2 idle; 0 2 fin 0;
            0 2 fin 1; 0 2 fin 2; 0 2 fin 3
        then: 0 2 idle; 0 2 fin 4; 0 2 sent 5 1; 0 2 idle; 0 2 gone
        makes both: 1 EndOfInput: Magic MpubSix => Okay;
            2 EndOfInput: Magic SubC Rdy5 / Rdy1 / Fin0 Fin1 Fin2 Fin3 / Fin4 => Okay GotA GotB GotC GotD GotE GotF

after a lower RDY four FINs bring the sixth message
        given: 0 1 began; 0 1 idle; 0 1 mpub t 0 6 => OK; 0 1 idle; 0 1 gone; 0 2 began; 0 2 idle; 0 2 sub t c => OK; 0 0 moved t c 0 6;
            0 2 rdy 5; 0 2 sent 0 1; 0 2 sent 1 1; 0 2 sent 2 1; 0 2 sent 3 1; 0 2 sent 4 1; 0 2 idle; 0 2 rdy 1; 0 2 idle; 0 2 fin 0;
            0 2 fin 1; 0 2 fin 2; 0 2 fin 3
        then: 0 2 sent 5 1; 0 2 idle; 0 2 fin 4; 0 2 idle; 0 2 gone
        makes no history: 1 EndOfInput: Magic MpubSix => Okay;
            2 EndOfInput: Magic SubC Rdy5 / Rdy1 / Fin0 Fin1 Fin2 Fin3 / Fin4 => Okay GotA GotB GotC GotD GotE GotF

a second FIN is refused, and a NOP behind it is taken
        given: 0 1 began; 0 1 idle; 0 1 pub t 0 => OK; 0 1 idle; 0 1 gone; 0 2 began; 0 2 idle; 0 2 sub t c => OK; 0 0 moved t c 0 1;
            0 2 rdy 1; 0 2 sent 0 1; 0 2 idle; 0 2 fin 0
        then: 0 2 fin 0 => E_FIN_FAILED message not in flight; 0 2 nop; 0 2 idle; 0 2 gone
        makes both: 1 EndOfInput: Magic PubA => Okay; 2 EndOfInput: Magic SubC Rdy1 / Fin0 Fin0 Nop => Okay GotA NotFinished

a second FIN is refused, and a NOP behind it isn't taken
        given: 0 1 began; 0 1 idle; 0 1 pub t 0 => OK; 0 1 idle; 0 1 gone; 0 2 began; 0 2 idle; 0 2 sub t c => OK; 0 0 moved t c 0 1;
            0 2 rdy 1; 0 2 sent 0 1; 0 2 idle; 0 2 fin 0
        then: 0 2 fin 0 => E_FIN_FAILED message not in flight; 0 2 idle; 0 2 gone
        makes no talk: 1 EndOfInput: Magic PubA => Okay; 2 EndOfInput: Magic SubC Rdy1 / Fin0 Fin0 Nop => Okay GotA NotFinished
";
