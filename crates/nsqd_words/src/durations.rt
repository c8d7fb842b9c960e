ghost use Rattle.std.specs.Prelude.{◌≡◌, ◌<◌, ◌^◌, length};
ghost use Rattle.nsqd_words.specs.Numbers.{FindsBelow};
ghost use Rattle.nsqd_words.specs.Durations.{IsDuration, unit_name, unit_time};
ghost use Rattle.nsqd_words.specs.Parts.{BeginsUnit, FindsFirst, LeadDigits};

use crate::numbers::read_digits;
use nsq_base::time::{HOUR, MILLISECOND, MINUTE, SECOND};

/// A unit of time.
#[derive(Clone, Copy)]
pub enum TimeUnit {
    /// `h`.
    Hour,
    /// `m`.
    Minute,
    /// `s`.
    Second,
    /// `ms`.
    Millisecond,
}

impl TimeUnit {
    /// A unit's nanoseconds.
    pub fn nanoseconds(self) -> u64
        ensures { result ≡ unit_time self }
    {
        match self {
            TimeUnit::Hour => HOUR,
            TimeUnit::Minute => MINUTE,
            TimeUnit::Second => SECOND,
            TimeUnit::Millisecond => MILLISECOND,
        }
    }

    // How many bytes a unit's name has.
    fn name_length(self) -> usize
        ensures { result ≡ length (unit_name self) }
    {
        match self {
            TimeUnit::Hour => 1,
            TimeUnit::Minute => 1,
            TimeUnit::Second => 1,
            TimeUnit::Millisecond => 2,
        }
    }
}

// The first pair of a text: how many nanoseconds it is, and how many bytes it has.
#[derive(Clone, Copy)]
struct Measured {
    nanoseconds: u64,
    length: usize,
}

/// The duration that a text writes, in nanoseconds: one or more pairs of 1 to 12 digits and one of `h`, `m`, `s` and `ms`,
/// their sum. None where the text isn't that, or where the sum is 2^64 or more.
pub fn read_duration(text: &[u8]) -> Option<u64>
    ensures { FindsBelow (2 ^ 64) (IsDuration text.now) result }
{
    if text.is_empty() {
        return None;
    }
    let mut start = 0;
    let mut total = 0u64;
    while start < text.len() {
        let Some(first) = first_pair(&text[start..]) else {
            return None;
        };
        let Some(sum) = total.checked_add(first.nanoseconds) else {
            return None;
        };
        total = sum;
        start += first.length;
    }
    Some(total)
}

// The first pair of a text.
fn first_pair(text: &[u8]) -> Option<Measured>
    requires { 0 < length text.now }
    ensures { FindsFirst (2 ^ 64) text.now result }
{
    let digits = leading_digits(text);
    let Some(count) = read_digits(&text[..digits], 12) else {
        return None;
    };
    let Some(unit) = unit_at(&text[digits..]) else {
        return None;
    };
    let Some(nanoseconds) = count.checked_mul(unit.nanoseconds()) else {
        return None;
    };
    Some(Measured {
        nanoseconds,
        length: digits + unit.name_length(),
    })
}

// How many digits stand in front.
fn leading_digits(text: &[u8]) -> usize
    ensures { LeadDigits text.now result }
{
    let mut count = 0;
    while count < text.len() && text[count].is_ascii_digit() {
        count += 1;
    }
    count
}

// The unit with which a text begins.
fn unit_at(text: &[u8]) -> Option<TimeUnit>
    ensures { BeginsUnit text.now result }
{
    match text {
        [b'm', b's', ..] => Some(TimeUnit::Millisecond),
        [b'm', ..] => Some(TimeUnit::Minute),
        [b'h', ..] => Some(TimeUnit::Hour),
        [b's', ..] => Some(TimeUnit::Second),
        _ => None,
    }
}
