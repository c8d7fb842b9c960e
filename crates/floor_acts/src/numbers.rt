ghost use Rattle.std.specs.Prelude.{◌≡◌};
ghost use Rattle.broker_history.specs.Reply.{are_left};
ghost use Rattle.floor_acts.specs.Replies.{is_count_to, is_span_to};

/// Whether so many further ids are left, where so many were used.
pub fn are_left(used: u64, count: u64) -> bool
    ensures { result ≡ are_left used count }
{
    match used.checked_add(count) {
        Some(sum) => sum <= 1 << 40,
        None => false,
    }
}

// Whether so many milliseconds are 0 to this span.
pub(crate) fn is_span_to(most: u64, delay: i64) -> bool
    ensures { result ≡ is_span_to most delay }
{
    delay >= 0 && u128::from(delay as u64) * 1_000_000 <= u128::from(most)
}

// Whether a number is 0 to this one.
pub(crate) fn is_count_to(most: u32, count: i64) -> bool
    ensures { result ≡ is_count_to most count }
{
    count >= 0 && count <= i64::from(most)
}
