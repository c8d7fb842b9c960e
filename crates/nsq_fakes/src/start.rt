use std::marker::Model;

/// The addresses and the folder's path that a host was started with.
#[derive(Drop)]
pub struct Start {
    pub tcp: String,
    pub http: String,
    pub path: String,
}

impl Model for Start {
    ghost use Rattle.std.specs.Prelude.{string_bytes};
    ghost use Rattle.nsq_outside.specs.Hosts.{Start};

    ghost Value = { Start };

    ghost view = { λ start. record { tcp = string_bytes start.tcp; http = string_bytes start.http; path = string_bytes start.path } };
}
