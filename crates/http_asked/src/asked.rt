ghost use Rattle.std.specs.Prelude.{◌≡◌, IfOk};
ghost use Rattle.http_wire.specs.Answer.{IsStatus};
ghost use Rattle.http_asked.specs.Told.{told_answer};

use broker_history::Said;
use http_calls::{HttpAnswer, Refusal, answer_to};
use nsq_core::Memory;
use std::alloc::Global;

/// What came of what was asked.
#[derive(Drop)]
pub enum Asked {
    /// This was said to it.
    Said(Said),
    /// The daemon stops, and the names were listed.
    Stopping,
}

/// The answer by what came of what was asked: by what is said, or that the daemon stops. Want of memory is the only error.
pub fn told_answer(
    alloc: Global,
    publish: bool,
    began: u64,
    told: Asked,
) -> Result<HttpAnswer, Memory>
    ensures value { IfOk result (λ answer. answer ≡ told_answer publish began told) }
    ensures status { IfOk result (λ answer. IsStatus answer.status) }
{
    match told {
        Asked::Said(said) => answer_to(alloc, publish, began, &said),
        Asked::Stopping => Refusal::Stopping.answer(alloc),
    }
}
