//! What the real machine does as a host, and a run of the daemon over it: its listeners on the loopback network, its folder on disk,
//! the standard streams. It has nothing but tests.

mod machine;
