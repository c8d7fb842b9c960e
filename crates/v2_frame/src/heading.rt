ghost use Rattle.std.specs.Prelude.{◌≡◌, ◌≢◌, [], ◌∷◌, List, ℕ, MatchOption};
ghost use Rattle.v2_frame.specs.Heading.{Says, SaysNothing};
ghost use Rattle.v2_frame.specs.Parts.{AreWords, seen_heading, spelled, IsNoVerb};

use crate::bytes::same;
use crate::line::Words;
use crate::number::{id_of, number_of};
use nsq_base::MsgId;

/// The first word of a command's line.
#[derive(Clone, Copy)]
pub(crate) enum Verb {
    Identify,
    Sub,
    Pub,
    Mpub,
    Dpub,
    Rdy,
    Fin,
    Req,
    Touch,
    Cls,
    Nop,
}

/// What the line of a command says, before its names are judged.
pub(crate) enum Heading<'a> {
    /// `IDENTIFY`
    Identify,
    /// `SUB` with a topic and a channel
    Sub(&'a [u8], &'a [u8]),
    /// `PUB` with a topic
    Pub(&'a [u8]),
    /// `MPUB` with a topic
    Mpub(&'a [u8]),
    /// `DPUB` with a topic and a number
    Dpub(&'a [u8], i64),
    /// `RDY` with a number
    Rdy(i64),
    /// `FIN` with an id
    Fin(MsgId),
    /// `REQ` with an id and a number
    Req(MsgId, i64),
    /// `TOUCH` with an id
    Touch(MsgId),
    /// `CLS`
    Cls,
    /// `NOP`
    Nop,
}

/// The verb that the word is, or None exactly where it is none.
fn verb_of(word: &[u8]) -> Option<Verb>
    ensures { MatchOption result (IsNoVerb word.now) (λ verb. word.now ≡ spelled verb) }
{
    if same(word, b"IDENTIFY") {
        return Some(Verb::Identify);
    }
    if same(word, b"SUB") {
        return Some(Verb::Sub);
    }
    if same(word, b"PUB") {
        return Some(Verb::Pub);
    }
    if same(word, b"MPUB") {
        return Some(Verb::Mpub);
    }
    if same(word, b"DPUB") {
        return Some(Verb::Dpub);
    }
    if same(word, b"RDY") {
        return Some(Verb::Rdy);
    }
    if same(word, b"FIN") {
        return Some(Verb::Fin);
    }
    if same(word, b"REQ") {
        return Some(Verb::Req);
    }
    if same(word, b"TOUCH") {
        return Some(Verb::Touch);
    }
    if same(word, b"CLS") {
        return Some(Verb::Cls);
    }
    if same(word, b"NOP") {
        return Some(Verb::Nop);
    }
    None
}

/// What the words say, or None exactly where they say nothing.
pub(crate) fn heading_of(words: Words<'_>) -> Option<Heading<'_>>
    ensures { (all : List (List ℕ)) → AreWords all words.entry → MatchOption result (SaysNothing all) (λ h. Says all (seen_heading h)) }
{
    match words {
        Words::One(first) => match verb_of(first) {
            Some(verb) => alone(verb),
            None => None,
        },
        Words::Two(first, word) => match verb_of(first) {
            Some(verb) => with_one(verb, word),
            None => None,
        },
        Words::Three(first, word, last) => match verb_of(first) {
            Some(verb) => with_two(verb, word, last),
            None => None,
        },
        Words::Many => None,
    }
}

/// What a verb alone says.
fn alone(verb: Verb) -> Option<Heading<'static>>
    ensures { MatchOption result (SaysNothing (spelled verb ∷ [])) (λ h. Says (spelled verb ∷ []) (seen_heading h)) }
{
    match verb {
        Verb::Identify => Some(Heading::Identify),
        Verb::Rdy => Some(Heading::Rdy(1)),
        Verb::Cls => Some(Heading::Cls),
        Verb::Nop => Some(Heading::Nop),
        _ => None,
    }
}

/// What a verb and a word say.
fn with_one(verb: Verb, word: &[u8]) -> Option<Heading<'_>>
    ensures { MatchOption result (SaysNothing (spelled verb ∷ word.now ∷ [])) (λ h. Says (spelled verb ∷ word.now ∷ []) (seen_heading h)) }
{
    match verb {
        Verb::Pub if !word.is_empty() => Some(Heading::Pub(word)),
        Verb::Mpub if !word.is_empty() => Some(Heading::Mpub(word)),
        Verb::Rdy => match number_of(word) {
            Some(count) => Some(Heading::Rdy(count)),
            None => None,
        },
        Verb::Fin => match id_of(word) {
            Some(id) => Some(Heading::Fin(id)),
            None => None,
        },
        Verb::Touch => match id_of(word) {
            Some(id) => Some(Heading::Touch(id)),
            None => None,
        },
        _ => None,
    }
}

/// What a verb and two words say.
fn with_two<'a>(verb: Verb, word: &'a [u8], last: &'a [u8]) -> Option<Heading<'a>>
    ensures { MatchOption result (SaysNothing (spelled verb ∷ word.now ∷ last.now ∷ [])) (λ h. Says (spelled verb ∷ word.now ∷ last.now ∷ []) (seen_heading h)) }
{
    match verb {
        Verb::Sub if !word.is_empty() && !last.is_empty() => Some(Heading::Sub(word, last)),
        Verb::Dpub if !word.is_empty() => match number_of(last) {
            Some(delay) => Some(Heading::Dpub(word, delay)),
            None => None,
        },
        Verb::Req => match id_of(word) {
            Some(id) => match number_of(last) {
                Some(delay) => Some(Heading::Req(id, delay)),
                None => None,
            },
            None => None,
        },
        _ => None,
    }
}
