//! Folders, and what an opening finds in each.
//!
//! A row is a text: its name, the files, and behind `=>` what is found: names as the file of names tells them, with the messages behind each
//! topic and each channel; or `bad data`, or that the epoch is spent. Each message is the `first` one, of which no delay is left.

use crate::folders::named_files;
use crate::path::names::{add, add_epoch, add_name};
use crate::text::part;
use crate::{check, same};
use path_plain::{Finding, FoundTopic, found};
use std::alloc::Global;
use std::process::Abort;
use v2_frame::Message;

// The record of 28 bytes is the message `hi` at moment 0, sent to nobody, with the first id of the first run.
static ROWS: &'static str = r#"
no file: => epoch 0

bad metadata without a file of names: t.diskqueue.meta.dat is 1/0/ => epoch 0

a topic with one message: t.diskqueue.000000.dat is size 28+zeros 10+0000010000000000hi; t.diskqueue.meta.dat is 1/0,0/0,32/;
        nsqd.dat is {"id_epoch":1,"topics":[{"channels":[],"name":"t","paused":false}],"version":"1.0.0"}
    => epoch 1; topic t; first

a channel with one message: nsqd.dat is {"topics":[{"name":"t","paused":true,"channels":[{"name":"c"}]}]};
        t:c.diskqueue.000000.dat is size 28+zeros 10+0000010000000000hi; t:c.diskqueue.meta.dat is 1/0,0/0,32/
    => epoch 0; topic t paused; channel c; first

a file of names that is an array: nsqd.dat is [] => bad data

a bad file of names comes before a spent epoch: nsqd.dat is {"id_epoch":16777215,"topics":[{}]} => bad data

the last epoch: nsqd.dat is {"id_epoch":16777215,"topics":[{"name":"t"}]} => epoch spent

a spent epoch comes before bad metadata: nsqd.dat is {"id_epoch":16777215,"topics":[{"name":"t"}]}; t.diskqueue.meta.dat is 1/0/
    => epoch spent

the epoch before the last: nsqd.dat is {"id_epoch":16777214} => epoch 16777214

bad metadata of a topic: nsqd.dat is {"id_epoch":1,"topics":[{"channels":[],"name":"t","paused":false}],"version":"1.0.0"};
        t.diskqueue.meta.dat is 1/0/
    => bad data

bad metadata of a channel that isn't listed: nsqd.dat is {"topics":[{"name":"t","channels":[{"name":"c"}]}]};
        t:d.diskqueue.meta.dat is 1/0/
    => epoch 0; topic t; channel c

bad metadata of a channel: nsqd.dat is {"topics":[{"name":"t","channels":[{"name":"c"}]}]}; t:d.diskqueue.meta.dat is 1/0/;
        t:c.diskqueue.meta.dat is 1/0/
    => bad data
"#;

fn is_first(message: &Message) -> bool {
    message.stamp == 0
        && message.attempts == 0
        && same(message.id.bytes(), b"0000010000000000")
        && same(message.body.bytes(), b"hi")
        && message.delay == 0
}

fn add_messages(rt: &impl Abort, told: &mut Vec<u8>, messages: &[Message]) {
    for message in messages {
        let word = if is_first(message) {
            "; first"
        } else {
            "; another"
        };
        add(rt, told, word);
    }
}

fn add_topic(rt: &impl Abort, told: &mut Vec<u8>, topic: &FoundTopic) {
    add_name(rt, told, "; topic ", topic.name.bytes(), topic.paused);
    add_messages(rt, told, &topic.messages);
    for channel in &topic.channels {
        add_name(rt, told, "; channel ", channel.name.bytes(), channel.paused);
        add_messages(rt, told, &channel.messages);
    }
}

// What is found, as rows tell it.
fn told_of(rt: &impl Abort, alloc: Global, finding: &Finding) -> Vec<u8> {
    let mut told = Vec::new(alloc);
    match finding {
        Finding::BadData => add(rt, &mut told, "bad data"),
        Finding::EpochSpent => add(rt, &mut told, "epoch spent"),
        Finding::Names(names) => {
            add_epoch(rt, &mut told, names.epoch);
            for topic in &names.topics {
                add_topic(rt, &mut told, topic);
            }
        }
    }
    told
}

fn holds(rt: &impl Abort, alloc: Global, row: &str) -> bool {
    let (_, rest) = part(rt, row, ": ");
    let (files, wanted) = part(rt, rest, "=> ");
    let files = named_files(rt, alloc, files);
    let finding = found(alloc, &files).expect(rt, "memory");
    same(&told_of(rt, alloc, &finding), wanted.as_bytes())
}

#[test]
fn rows(rt: HostRuntime) {
    for row in ROWS.trim().split("\n\n") {
        check(&rt, holds(&rt, rt.alloc(), row), row);
    }
}
