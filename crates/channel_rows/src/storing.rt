//! Scripts of what joins a channel, and of what becomes of all its copies.

/// What joins, and a folder that fails; copies that are dropped, and a stop and a start.
pub static ROWS: &'static str = "
an offered delay counts from its joining
        c 3: offer 0 x 5 10 -> done; places 0 0 0 1; events 1 0 0; move 14 -> nothing; move 15 -> came-due 0; places 1 0 0 0

what finds the ring full goes to disk
        c 1: ready first 3; offer 0 a -> done; offer 1 b -> done; offer 2 c -> done; places 3 2 0 0; events 3 0 0;
        give first -> send 0 a 1; give first -> send 1 b 1; give first -> send 2 c 1

without room all go to disk
        c 0: offer 0 x -> done; places 1 1 0 0; ready first 1; give first -> send 0 x 1; places 0 0 1 0

in an ephemeral channel it is dropped, and not counted
        c#ephemeral 1: ready first 3; offer 0 a -> done; offer 1 b -> done; offer 2 c 1 -> done; places 1 0 0 1; events 2 0 0;
        move 1 -> came-due 2; places 1 0 0 0; give first -> send 0 a 1; give first -> none-queued

an ephemeral channel without room keeps none but deferred ones
        c#ephemeral 0: ready first 1; offer 0 a -> done; give first -> none-queued; offer 1 b 5 -> done; places 0 0 0 1;
        move 5 -> came-due 1; places 0 0 0 0; events 1 0 0

a copy that is given back to a full ephemeral channel is dropped
        c#ephemeral 1: ready first 2; offer 0 a -> done; give first -> send 0 a 1; offer 1 b -> done; requeue first 0 -> done;
        look first 0 -> not-in-flight; places 1 0 0 0; events 2 1 0

a fault hands the message back
        c 0 write 0 1: offer 0 a -> fault; places 0 0 0 0; events 0 0 0; offer 0 a -> done; places 1 1 0 0; events 1 0 0

what comes due stays where the folder fails
        c 0 write 0 1: offer 0 a 5 -> done; move 5 -> stays 0; places 0 0 0 1; move 5 -> came-due 0; places 1 1 0 0

what timed out stays in flight where the folder fails
        c 0 write 1 2: ready first 1; offer 0 a -> done; give first -> send 0 a 1; move 60s -> stays 0; look first 0 -> yours;
        events 1 0 0; move 60s -> timed-out 0; places 1 1 0 0; events 1 0 1

an emptying that the folder refuses leaves all
        c 0 write 1 2: offer 0 a -> done; offer 1 b 5 -> done; empty -> fault; places 1 1 0 1; empty -> done; places 0 0 0 0

a deletion that the folder refuses leaves all
        c 0 write 1 2: ready first 1; offer 0 a -> done; offer 1 b 5 -> done; delete -> fault; places 1 1 0 1;
        give first -> send 0 a 1; delete -> done; places 0 0 0 0

a save that failed is due still
        c 0 write 1 2: sync -> not-due; offer 0 a -> done; sync -> fault; sync -> done; sync -> not-due; places 1 1 0 0

emptying drops all copies, wherever they are
        c 1: ready first 2; offer 0 a -> done; give first -> send 0 a 1; offer 1 b -> done; offer 2 c -> done;
        offer 3 d 5 -> done; places 2 1 1 1; empty -> done; places 0 0 0 0; events 4 0 0; look first 0 -> not-in-flight;
        move 60s -> nothing; give first -> none-queued

a deletion drops all, and removes the files
        c 0: ready first 1; offer 0 a -> done; offer 1 b -> done; give first -> send 0 a 1; delete -> done;
        absent t:c.diskqueue.000000.dat; absent t:c.diskqueue.meta.dat; places 0 0 0 0; events 0 0 0; open -> done; places 0 0 0 0

a stop writes the ring, those in flight and the deferred ones
        c 3: ready first 2; offer 0 a -> done; offer 1 b -> done; offer 2 c -> done; give first -> send 0 a 1;
        give first -> send 1 b 1; requeue first 0 5s -> done; flush -> done;
        has t:c.diskqueue.000000.dat \0\0\0\x1b\0\0\0\0\0\0\0\x07\0\x000000010000000002c \0\0\0\x1b\0\0\0\0\0\0\0\x07\0\x010000010000000001b \0\0\0\x1b\0\0\0\0\0\0\0\x07\0\x010000010000000000a;
        has-lines t:c.diskqueue.meta.dat 3 0,0 0,93; open -> done; places 3 3 0 0; events 0 0 0; ready first 3;
        give first -> send 2 c 1; give first -> send 1 b 2; give first -> send 0 a 2

a stop keeps the order where the ring is short
        c 1: ready first 2; offer 0 a -> done; give first 2 -> send 0 a 1; offer 1 b -> done; give first 1 -> send 1 b 1;
        offer 2 c -> done; offer 3 d 7 -> done; flush -> done; open -> done; ready first 4; give first -> send 2 c 1;
        give first -> send 1 b 2; give first -> send 0 a 2; give first -> send 3 d 1

a stop of an ephemeral channel writes nothing
        c#ephemeral 1: offer 0 a -> done; offer 1 b 5 -> done; flush -> done; sync -> not-due; places 1 0 0 1;
        absent t:c#ephemeral.diskqueue.000000.dat; absent t:c#ephemeral.diskqueue.meta.dat; open -> done; places 0 0 0 0

a stop that the folder refuses
        c 1 write 0 1: offer 0 a -> done; flush -> fault

an opening that the folder refuses, and another
        c 1 any 0 1 with 0 0,0 0,0: open -> fault; open -> done; places 0 0 0 0

metadata outside its grammar
        c 1 with 1 0: open -> bad-metadata
";
