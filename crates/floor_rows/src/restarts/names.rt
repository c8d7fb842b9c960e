//! Files of names that somebody else wrote.

pub const ROWS: &str = r#"
names out of order
    file nsqd.dat  {"topics" : [{"name":"u"},{"channels":[{"name":"b"},{"name":"a"}],"name":"t"},{"name":"T"}], "id_epoch":7}
    open
    epoch => 8
    0 names => names T [ ] t [ a b ] u [ ]
    shut => clean
    leaves nsqd.dat {"id_epoch":8,"topics":[{"channels":[],"name":"T","paused":false},{"channels":[{"name":"a","paused":false},{"name":"b","paused":false}],"name":"t","paused":false},{"channels":[],"name":"u","paused":false}],"version":"1.0.0"}

a topic twice
    file nsqd.dat {"topics":[{"name":"t"},{"name":"u"},{"name":"t","paused":true}]}
    refused bad-data

a channel twice
    file nsqd.dat {"topics":[{"name":"t","channels":[{"name":"c"},{"name":"c"}]}]}
    refused bad-data

ephemeral names, one of them twice, and a channel's name in two topics
    file nsqd.dat {"topics":[{"name":"e#ephemeral"},{"name":"e#ephemeral"},{"name":"t","channels":[{"name":"c"},{"name":"d#ephemeral"}]},{"name":"u","channels":[{"name":"c"}]}]}
    file e#ephemeral.diskqueue.000000.dat x
    open
    epoch => 1
    0 names => names t [ c ] u [ c ]
    shut => clean
    lacks e#ephemeral.diskqueue.000000.dat
    leaves e#ephemeral.diskqueue.000000.dat.bad x
    leaves nsqd.dat {"id_epoch":1,"topics":[{"channels":[{"name":"c","paused":false}],"name":"t","paused":false},{"channels":[{"name":"c","paused":false}],"name":"u","paused":false}],"version":"1.0.0"}

a name of 64 bytes
    file nsqd.dat {"topics":[{"name":"aaaaaaaabbbbbbbbccccccccddddddddeeeeeeeeffffffffgggggggghhhhhhhh"}]}
    open
    0 names => names aaaaaaaabbbbbbbbccccccccddddddddeeeeeeeeffffffffgggggggghhhhhhhh [ ]
    shut => clean

a name of 65 bytes
    file nsqd.dat {"topics":[{"name":"aaaaaaaabbbbbbbbccccccccddddddddeeeeeeeeffffffffgggggggghhhhhhhhi"}]}
    refused bad-data

members that nobody knows, and null ones
    file nsqd.dat {"version":[1,{"a":null}],"id_epoch":null,"topics":[{"more":1.5,"name":"t","paused":null,"channels":null}],"x":"y"}
    open
    epoch => 1
    0 names => names t [ ]
    shut => clean
    leaves nsqd.dat {"id_epoch":1,"topics":[{"channels":[],"name":"t","paused":false}],"version":"1.0.0"}
"#;
