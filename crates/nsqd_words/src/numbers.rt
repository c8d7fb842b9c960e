ghost use Rattle.std.specs.Prelude.{◌≤◌, SomeIff};
ghost use Rattle.std.specs.Str.Parse.{digits_value};
ghost use Rattle.nsqd_words.specs.Numbers.{AreDigits};

/// The number that a text writes in 1 to 18 decimal digits. None where the text isn't that.
pub fn read_number(text: &[u8]) -> Option<u64>
    ensures { SomeIff result (AreDigits 18 text.now) (digits_value 10 text.now) }
{
    read_digits(text, 18)
}

/// The number that a text writes in 1 to 18 decimal digits, where it is no greater than this.
pub(crate) fn read_number_up_to(text: &[u8], greatest: u64) -> Option<u64>
    ensures { SomeIff result (AreDigits 18 text.now × (digits_value 10 text.now ≤ greatest)) (digits_value 10 text.now) }
{
    match read_number(text) {
        Some(n) if n <= greatest => Some(n),
        _ => None,
    }
}

/// The number that a text writes in 1 to so many decimal digits. None where the text isn't that.
pub(crate) fn read_digits(text: &[u8], most: usize) -> Option<u64>
    requires { most ≤ 18 }
    ensures { SomeIff result (AreDigits most text.now) (digits_value 10 text.now) }
{
    if text.is_empty() || text.len() > most {
        return None;
    }
    let mut n = 0u64;
    for digit in text {
        if !digit.is_ascii_digit() {
            return None;
        }
        n = n * 10 + u64::from(*digit - b'0');
    }
    Some(n)
}
