ghost use Rattle.std.specs.Prelude.{◌≡◌, IfOk};
ghost use Rattle.drill_parts.specs.Draws.{behind, drawn, next, publish_from, publishes};

use nsq_base::Memory;
use std::alloc::Global;

/// A publish of a drill.
#[derive(Clone, Copy)]
pub struct Publish {
    /// Its number, from 0 on. A run of the first epoch gives the message the id of this number.
    pub number: u32,
    /// The number of its topic, 0 to 3.
    pub topic: u8,
    /// How many bytes its body has, 1 to 200.
    pub length: u32,
}

/// So many publishes, drawn from this seed: each by two draws of the generator.
pub fn draw(alloc: Global, seed: u64, count: u32) -> Result<Vec<Publish>, Memory>
    ensures { IfOk result (λ all. all.items ≡ publishes seed count) }
{
    let mut all = Vec::new(alloc);
    let mut state = seed;
    let mut number = 0;
    while number < count {
        all.push(publish_from(state, number))?;
        state = next(next(state));
        number += 1;
    }
    Ok(all)
}

// The publish of this number, by the two draws from this state on.
fn publish_from(state: u64, number: u32) -> Publish
    ensures { result ≡ publish_from state number }
{
    let first = next(state);
    let second = next(first);
    Publish {
        number,
        topic: (drawn(first) % 4) as u8,
        length: (drawn(second) % 200) as u32 + 1,
    }
}

// The state of the generator behind one draw.
fn next(state: u64) -> u64
    ensures { result ≡ next state }
{
    state
        .wrapping_mul(6_364_136_223_846_793_005)
        .wrapping_add(1_442_695_040_888_963_407)
}

// The number that is drawn where the generator comes to this state.
fn drawn(state: u64) -> u64
    ensures { result ≡ drawn state }
{
    state >> 33
}
