//! The order of refusals: each refusal with all earlier ones absent, and with the next one present too.
//!
//! A row is a text: its name, the phase of a client, whether the message that it names is in flight with it, how many ids were used, what it
//! sends, and behind `=>` what it is answered.

use crate::commands::{command_of, kind_of, phase_of};
use crate::made::{check, copy, cut, halves, part, same, used_of};
use broker_state::{Phase, reply};
use nsq_base::Options;
use std::alloc::Global;
use std::process::Abort;
use v2_frame::{Command, Frame};

// Bodies that IDENTIFY refuses.
static BAD_BODIES: &'static str = r#"
[]
{
null
{"client_id":1}
{"hostname":true}
{"user_agent":[]}
{"feature_negotiation":"yes"}
{"heartbeat_interval":"1"}
{"heartbeat_interval":-2}
{"heartbeat_interval":999}
{"heartbeat_interval":60001}
{"heartbeat_interval":1000.5}
{"heartbeat_interval":18446744073709551616}
{"msg_timeout":-1}
{"msg_timeout":999}
{"msg_timeout":900001}
{"msg_timeout":{}}
{"sample_rate":-1}
{"sample_rate":100}
{"sample_rate":0.5}
{"output_buffer_size":"x"}
{"output_buffer_timeout":true}
{"output_buffer_timeout":18446744073709551616}
{"deflate_level":[]}
{"tls_v1":1}
{"snappy":"no"}
{"deflate":0}
{"feature_negotiation":true,"sample_rate":100}
"#;

// Bodies that are answered OK.
static GOOD_BODIES: &'static str = r#"
{}
{"client_id":"c","hostname":"h","user_agent":"u"}
{"heartbeat_interval":-1}
{"heartbeat_interval":0}
{"heartbeat_interval":1000}
{"heartbeat_interval":60000}
{"msg_timeout":0}
{"msg_timeout":1000}
{"msg_timeout":900000}
{"sample_rate":99}
{"tls_v1":true,"snappy":true,"deflate":true}
{"client_id":null,"heartbeat_interval":null,"tls_v1":null}
{"unknown":[1,2]}
{"feature_negotiation":false}
{"sample_rate":100,"sample_rate":5}
"#;

static ROWS: &'static str = r#"
IDENTIFY of a subscribed client
        Subscribed, no ids: identify {} => E_INVALID not in this state

IDENTIFY of a closing client
        Closing, no ids: identify {} => E_INVALID not in this state

IDENTIFY of a subscribed client, in bad JSON
        Subscribed, no ids: identify [] => E_INVALID not in this state

IDENTIFY that isn't UTF-8
        Fresh, no ids: identify NOT_UTF8 => E_BAD_BODY bad JSON

IDENTIFY with 'output_buffer_size':-1,'output_buffer_timeout':18446744073709551615,'deflate_level':6
        Fresh, no ids: identify {"output_buffer_size":-1,"output_buffer_timeout":18446744073709551615,"deflate_level":6} => OK

IDENTIFY that negotiates
        Fresh, no ids: identify {"feature_negotiation":true} => {"auth_required":false,"deflate":false,"deflate_level":0,"max_deflate_level":0,"max_msg_timeout":900000,"max_rdy_count":2500,"msg_timeout":60000,"sample_rate":0,"snappy":false,"tls_v1":false,"version":"1.0.0"}

IDENTIFY that negotiates, with a time for messages
        Fresh, no ids: identify {"feature_negotiation":true,"msg_timeout":1500} => {"auth_required":false,"deflate":false,"deflate_level":0,"max_deflate_level":0,"max_msg_timeout":900000,"max_rdy_count":2500,"msg_timeout":1500,"sample_rate":0,"snappy":false,"tls_v1":false,"version":"1.0.0"}

SUB of a fresh client
        Fresh, no ids: sub t c => OK

SUB of a subscribed client
        Subscribed, no ids: sub t c => E_INVALID not in this state

SUB of a closing client
        Closing, no ids: sub t c => E_INVALID not in this state

PUB of a fresh client
        Fresh, all ids but 1: pub t x => OK

PUB of a subscribed client
        Subscribed, all ids but 1: pub t x => OK

PUB of a closing client
        Closing, all ids but 1: pub t x => OK

PUB without an id
        Fresh, all ids but 0: pub t x => E_PUB_FAILED ids spent

MPUB with ids for all
        Fresh, all ids but 3: mpub t x 3 => OK

MPUB with ids for all but one
        Fresh, all ids but 2: mpub t x 3 => E_MPUB_FAILED ids spent

DPUB below 0
        Fresh, no ids: dpub t -1 x => E_INVALID bad delay

DPUB above the longest delay
        Fresh, no ids: dpub t 3600001 x => E_INVALID bad delay

DPUB above the longest delay, without an id
        Fresh, all ids but 0: dpub t 3600001 x => E_INVALID bad delay

DPUB without an id
        Fresh, all ids but 0: dpub t 0 x => E_DPUB_FAILED ids spent

DPUB with the longest delay
        Fresh, all ids but 1: dpub t 3600000 x => OK

RDY of a fresh client
        Fresh, no ids: rdy 1 => E_INVALID not in this state

RDY of a fresh client, out of range
        Fresh, no ids: rdy 2501 => E_INVALID not in this state

RDY below 0
        Subscribed, no ids: rdy -1 => E_INVALID bad count

RDY above the greatest count
        Subscribed, no ids: rdy 2501 => E_INVALID bad count

RDY with the greatest count
        Subscribed, no ids: rdy 2500

RDY 0
        Subscribed, no ids: rdy 0

RDY of a closing client, out of range
        Closing, no ids: rdy 2501

CLS of a fresh client
        Fresh, no ids: cls => E_INVALID not in this state

CLS of a closing client
        Closing, no ids: cls => E_INVALID not in this state

CLS
        Subscribed, no ids: cls => CLOSE_WAIT

NOP of a fresh client
        Fresh, no ids: nop

NOP of a subscribed client
        Subscribed, no ids: nop

NOP of a closing client
        Closing, no ids: nop

FIN of a fresh client, in flight
        Fresh with it in flight, no ids: fin 0 => E_INVALID not in this state

FIN of a fresh client, not in flight
        Fresh, no ids: fin 0 => E_INVALID not in this state

FIN not in flight
        Subscribed, no ids: fin 0 => E_FIN_FAILED message not in flight

FIN of a closing client, not in flight
        Closing, no ids: fin 0 => E_FIN_FAILED message not in flight

FIN in flight
        Subscribed with it in flight, no ids: fin 0

FIN of a closing client, in flight
        Closing with it in flight, no ids: fin 0

REQ of a fresh client, in flight
        Fresh with it in flight, no ids: req 0 0 => E_INVALID not in this state

REQ of a fresh client, not in flight
        Fresh, no ids: req 0 0 => E_INVALID not in this state

REQ not in flight
        Subscribed, no ids: req 0 0 => E_REQ_FAILED message not in flight

REQ of a closing client, not in flight
        Closing, no ids: req 0 0 => E_REQ_FAILED message not in flight

REQ in flight
        Subscribed with it in flight, no ids: req 0 0

REQ of a closing client, in flight
        Closing with it in flight, no ids: req 0 0

TOUCH of a fresh client, in flight
        Fresh with it in flight, no ids: touch 0 => E_INVALID not in this state

TOUCH of a fresh client, not in flight
        Fresh, no ids: touch 0 => E_INVALID not in this state

TOUCH not in flight
        Subscribed, no ids: touch 0 => E_TOUCH_FAILED message not in flight

TOUCH of a closing client, not in flight
        Closing, no ids: touch 0 => E_TOUCH_FAILED message not in flight

TOUCH in flight
        Subscribed with it in flight, no ids: touch 0

TOUCH of a closing client, in flight
        Closing with it in flight, no ids: touch 0

REQ out of range, in flight
        Subscribed with it in flight, no ids: req 0 99999999
"#;

// Whether this was answered: nothing where the text is empty, and an error where it begins so.
fn is_got(answer: &Option<Frame>, gets: &str) -> bool {
    match answer {
        None => gets.is_empty(),
        Some(frame) => {
            !gets.is_empty()
                && frame.kind == kind_of(gets)
                && same(frame.body.bytes(), gets.as_bytes())
        }
    }
}

fn holds(rt: &impl Abort, alloc: Global, row: &str) -> bool {
    let (_, rest) = part(rt, row, "\n");
    let (client, rest) = part(rt, rest.trim(), ", ");
    let (used, rest) = part(rt, rest, ": ");
    let (sends, gets) = halves(rest, " => ");
    let (word, sent) = cut(sends);
    let (phase, flies) = cut(client);
    let command = command_of(rt, alloc, word, sent);
    let used = used_of(rt, used);
    let phase = phase_of(rt, phase);
    let gets_so = is_answered(rt, alloc, used, phase, !flies.is_empty(), &command, gets);
    let_command_go(command);
    gets_so
}

// Whether a client in this phase is answered so, where so many ids were used, and the message that it names is in flight with it or isn't.
fn is_answered(
    rt: &impl Abort,
    alloc: Global,
    used: u64,
    phase: Phase,
    flies: bool,
    command: &Command,
    gets: &str,
) -> bool {
    let options = Options::defaults(alloc).expect(rt, "memory");
    let answer = reply(alloc, &options, used, phase, flies, command).expect(rt, "memory");
    is_got(&answer, gets)
}

// Takes a command apart, once for all that made one.
fn let_command_go(_command: Command) {}

// Stops at the first of these bodies, a line each, with which a fresh client's IDENTIFY isn't answered so.
fn all_get(rt: &impl Abort, alloc: Global, bodies: &'static str, gets: &str) {
    for body in bodies.trim().split('\n') {
        check(rt, is_answered_so(rt, alloc, body, gets), body);
    }
}

fn is_answered_so(rt: &impl Abort, alloc: Global, body: &str, gets: &str) -> bool {
    let command = Command::Identify(copy(rt, alloc, body.as_bytes()));
    let gets_so = is_answered(rt, alloc, 0, Phase::Fresh, false, &command, gets);
    let_command_go(command);
    gets_so
}

#[test]
fn bodies_of_identify(rt: HostRuntime) {
    all_get(&rt, rt.alloc(), BAD_BODIES, "E_BAD_BODY bad JSON");
    all_get(&rt, rt.alloc(), GOOD_BODIES, "OK");
}

#[test]
fn rows(rt: HostRuntime) {
    for row in ROWS.trim().split("\n\n") {
        check(&rt, holds(&rt, rt.alloc(), row), row);
    }
}
