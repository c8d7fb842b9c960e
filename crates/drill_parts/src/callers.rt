ghost use Rattle.std.specs.Prelude.{◌≡◌, ◌*◌, ◌<◌, ℕ, List, [], ◌∷◌, IfOk, OnOk, ◌++◌, flat_map, length, map};
ghost use Rattle.nsq_fakes.specs.declared.script.Piece.TheVariants.{Bytes};
ghost use Rattle.drill_parts.specs.Callers.{consumer, digit, fin, fin_piece, greeting, publish_piece, publisher, those_to};

use crate::draws::Publish;
use nsq_base::{Body, Memory, MsgId};
use nsq_fakes::Piece;
use std::alloc::Global;

// How many FINs stand in one piece.
const FINS: usize = 64;

/// What the publisher of a drill sends: the magic, then one PUB a piece.
pub fn publisher(alloc: Global, publishes: &[Publish]) -> Result<Vec<Piece>, Memory>
    ensures { IfOk result (λ pieces. pieces.items ≡ map Bytes (publisher publishes.now)) }
{
    let mut pieces = Vec::new(alloc);
    add_piece(&mut pieces, Body::copy(alloc, b"  V2"))?;
    for publish in publishes {
        add_piece(&mut pieces, publish_piece(alloc, publish))?;
    }
    Ok(pieces)
}

// Appends a piece with these bytes, where they could be made.
fn add_piece(pieces: &mut Vec<Piece>, bytes: Result<Body, Memory>) -> Result<(), Memory>
    ensures { (piece : List ℕ) → IfOk bytes (λ b. b ≡ piece) → OnOk result (pieces.new.items ≡ pieces.old.items ++ Bytes piece ∷ []) }
{
    let bytes = bytes?;
    pieces.reserve(1)?;
    pieces.push_reserved(Piece::Bytes(bytes));
    Ok(())
}

// A PUB with a body of as many bytes `a` as the publish has.
fn publish_piece(alloc: Global, publish: &Publish) -> Result<Body, Memory>
    ensures { IfOk result (λ piece. piece ≡ publish_piece publish.now) }
{
    let length = publish.length;
    let mut bytes = Vec::from_slice(alloc, b"PUB t")?;
    bytes.push(digit(publish.topic))?;
    bytes.push(b'\n')?;
    bytes.extend_from_slice(&length.to_be_bytes())?;
    let whole = bytes.len() + length as usize;
    bytes.resize(whole, b'a')?;
    Ok(Body::of(bytes))
}

// The digit of a topic, of `t0` to `t3`.
fn digit(topic: u8) -> u8
    ensures { result ≡ digit topic }
{
    if topic == 0 {
        b'0'
    } else if topic == 1 {
        b'1'
    } else if topic == 2 {
        b'2'
    } else {
        b'3'
    }
}

/// What the consumer of a topic sends: SUB and RDY, then FINs of all that was published to the topic, in the order of publishing, 64 a piece.
pub fn consumer(alloc: Global, publishes: &[Publish], topic: u8) -> Result<Vec<Piece>, Memory>
    ensures { IfOk result (λ pieces. pieces.items ≡ map Bytes (consumer publishes.now topic)) }
{
    let those = those_to(alloc, publishes, topic)?;
    let mut pieces = Vec::new(alloc);
    add_piece(&mut pieces, greeting(alloc, topic))?;
    let count = those.len().div_ceil(FINS);
    let mut k = 0;
    while k < count {
        add_piece(&mut pieces, fin_piece(alloc, &those, k))?;
        k += 1;
    }
    Ok(pieces)
}

// The subscription to the channel `c` of a topic, and RDY.
fn greeting(alloc: Global, topic: u8) -> Result<Body, Memory>
    ensures { IfOk result (λ piece. piece ≡ greeting topic) }
{
    let mut bytes = Vec::from_slice(alloc, b"  V2SUB t")?;
    bytes.push(digit(topic))?;
    bytes.extend_from_slice(b" c\nRDY 2500\n")?;
    Ok(Body::of(bytes))
}

// The publishes to a topic, in order.
fn those_to(alloc: Global, publishes: &[Publish], topic: u8) -> Result<Vec<Publish>, Memory>
    ensures { IfOk result (λ those. those.items ≡ those_to topic publishes.now) }
{
    let mut those = Vec::new(alloc);
    for publish in publishes {
        if publish.topic == topic {
            those.push(*publish)?;
        }
    }
    Ok(those)
}

// The FINs of the piece of this number.
fn fin_piece(alloc: Global, publishes: &[Publish], k: usize) -> Result<Body, Memory>
    requires { 64 * k < length publishes.now }
    ensures { IfOk result (λ piece. piece ≡ fin_piece publishes.now k) }
{
    let from = FINS * k;
    let rest = &publishes[from..];
    fins(alloc, &rest[..FINS.min(rest.len())])
}

// The FINs of these publishes.
fn fins(alloc: Global, publishes: &[Publish]) -> Result<Body, Memory>
    ensures { IfOk result (λ piece. piece ≡ flat_map fin publishes.now) }
{
    let mut bytes = Vec::new(alloc);
    for publish in publishes {
        add_fin(&mut bytes, publish)?;
    }
    Ok(Body::of(bytes))
}

// Appends the FIN of a publish.
fn add_fin(bytes: &mut Vec<u8>, publish: &Publish) -> Result<(), Memory>
    ensures { OnOk result (bytes.new.items ≡ bytes.old.items ++ fin publish.now) }
{
    let id = MsgId::make(1, u64::from(publish.number));
    bytes.extend_from_slice(b"FIN ")?;
    bytes.extend_from_slice(id.bytes())?;
    bytes.push(b'\n')?;
    Ok(())
}
