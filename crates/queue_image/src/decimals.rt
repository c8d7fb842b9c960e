ghost use Rattle.std.specs.Prelude.{◌≡◌, ◌<◌, ◌≤◌, ◌↔◌, ◌==◌, IsTrue, SomeIff, length};
ghost use Rattle.std.specs.Char.{is_ascii_digit};
ghost use Rattle.std.specs.List.{position, AllPass};
ghost use Rattle.std.specs.Str.Parse.{IsNumeral, digits_value};
ghost use Rattle.queue_image.specs.Answered.{BeginsWithDigits};

/// A number's digits at the head of a text, and what stands behind the separator that ends them.
#[derive(Clone, Copy)]
pub struct Field<'a> {
    /// The digits, 1 to 40 of them.
    pub digits: &'a [u8],
    /// What stands behind the separator.
    pub rest: &'a [u8],
}

/// The digits up to the separator; None exactly where the text doesn't begin with 1 to 40 digits and the separator.
pub fn leading_digits(text: &[u8], separator: u8) -> Option<Field<'_>>
    requires { separator < 48 }
    ensures { BeginsWithDigits text.now separator result }
{
    let len = find_byte(text, separator)?;
    if len > LONGEST {
        return None;
    }
    let digits = &text[..len];
    if !is_numeral(digits) {
        return None;
    }
    Some(Field {
        digits,
        rest: &text[len + 1..],
    })
}

// The most digits of a number.
const LONGEST: usize = 40;

/// The value of decimal digits; None exactly where they are none, or the value is above the greatest one.
pub fn value_up_to(digits: &[u8], most: u64) -> Option<u64>
    ensures { SomeIff result (IsNumeral 10 digits.now × (digits_value 10 digits.now ≤ most)) (digits_value 10 digits.now) }
{
    if !is_numeral(digits) {
        return None;
    }
    let mut value: u128 = 0;
    for digit in digits {
        value = value * 10 + (*digit - b'0') as u128;
        if value > most as u128 {
            return None;
        }
    }
    Some(value as u64)
}

// The place of the first byte of that value.
fn find_byte(text: &[u8], byte: u8) -> Option<usize>
    ensures { result ≡ position (λ b. b == byte) text.now }
{
    text.iter().position(|b| *b == byte)
}

// One decimal digit or more, and nothing else.
fn is_numeral(digits: &[u8]) -> bool
    ensures { IsTrue result ↔ IsNumeral 10 digits.now }
{
    !digits.is_empty() && all_digits(digits)
}

// Nothing but decimal digits.
fn all_digits(bytes: &[u8]) -> bool
    ensures { IsTrue result ↔ AllPass is_ascii_digit bytes.now }
{
    bytes.iter().all(|byte| byte.is_ascii_digit())
}
