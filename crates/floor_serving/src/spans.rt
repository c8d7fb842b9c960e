ghost use Rattle.std.specs.Prelude.{◌≡◌, ◌<◌, ◌^◌, min};
ghost use Rattle.broker_history.specs.Reply.{count_of, span_of};

// A span of milliseconds in nanoseconds, brought into the range from 0 to the longest one.
pub(crate) fn span_of(delay: i64, most: u64) -> u64
    ensures { result ≡ min (span_of delay) most }
{
    if delay < 0 {
        return 0;
    }
    delay.unsigned_abs().saturating_mul(1_000_000).min(most)
}

// How many messages RDY asks for, where that is a number of 32 bits; or else 0.
pub(crate) fn count_of(count: i64) -> u32
    ensures { count_of count < 2 ^ 32 → result ≡ count_of count }
{
    match u32::try_from(count) {
        Ok(count) => count,
        Err(_) => 0,
    }
}
