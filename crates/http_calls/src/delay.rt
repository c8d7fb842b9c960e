ghost use Rattle.std.specs.Prelude.{◌≡◌, ◌<◌, ◌^◌, Some, IfSome, option_map};
ghost use Rattle.http_calls.specs.Delay.{decimal_in, number_in, delay_by, delay_in};

use crate::Refusal;
use nsq_base::Options;
use nsq_base::time::MILLISECOND;

/// The most digits of a number.
const MOST_DIGITS: usize = 18;

/// The delay in nanoseconds that a publish asks for by this argument.
pub(crate) fn delay_in(options: &Options, argument: Option<&[u8]>) -> Result<u64, Refusal>
    ensures { result ≡ delay_in options.now (option_map (λ word. word.now) argument.entry) }
{
    let Some(word) = argument else {
        return Ok(0);
    };
    match number_of(word) {
        Some(number) => delay_of(options, number),
        None => Err(Refusal::InvalidDefer),
    }
}

/// So many milliseconds in nanoseconds, where they are in the range of a delay.
fn delay_of(options: &Options, number: i64) -> Result<u64, Refusal>
    ensures { result ≡ delay_by options.now (Some number) }
{
    if number < 0 {
        return Err(Refusal::InvalidDefer);
    }
    let milliseconds = number.unsigned_abs();
    if milliseconds > options.max_req_timeout / MILLISECOND {
        return Err(Refusal::InvalidDefer);
    }
    Ok(milliseconds * MILLISECOND)
}

/// The number that the word is, or None exactly where it is none.
fn number_of(word: &[u8]) -> Option<i64>
    ensures { result ≡ number_in word.now }
{
    if !word.is_empty() && word[0] == b'-' {
        let Some(size) = decimal_of(&word[1..]) else {
            return None;
        };
        return Some(-(size as i64));
    }
    let Some(size) = decimal_of(word) else {
        return None;
    };
    Some(size as i64)
}

/// The number that the decimal digits spell, or None exactly where they aren't 1 to 18 digits.
fn decimal_of(digits: &[u8]) -> Option<u64>
    ensures value { result ≡ decimal_in digits.now }
    ensures small { IfSome result (λ n. n < 10 ^ 18) }
{
    if digits.is_empty() || digits.len() > MOST_DIGITS {
        return None;
    }
    let mut number = 0;
    for digit in digits {
        if !digit.is_ascii_digit() {
            return None;
        }
        number = number * 10 + u64::from(digit - b'0');
    }
    Some(number)
}
