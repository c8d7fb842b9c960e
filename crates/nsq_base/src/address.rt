ghost use Rattle.std.specs.Prelude.{◌≡◌, ◌+◌, ◌<◌, ◌≤◌, ◌↔◌, length, IsTrue, SomeIff};
ghost use Rattle.std.specs.List.{AllPass};
ghost use Rattle.std.specs.Char.{is_ascii_digit};
ghost use Rattle.std.specs.Str.Parse.{digits_value};
ghost use Rattle.nsq_base.specs.Address.{IsPort, IsAddress, BeginDigits, port_digits};

/// Whether the text is a host, a colon and a port from 1 to 65535 without a zero in front. The host may be empty.
pub fn is_address(text: &[u8]) -> bool
    ensures { IsTrue result ↔ IsAddress text.now }
{
    let Some(colon) = digits_start(text).checked_sub(1) else {
        return false;
    };
    text[colon] == b':' && read_port(&text[colon + 1..]).is_some()
}

/// The port of an address.
pub fn port(text: &[u8]) -> u16
    requires { IsAddress text.now }
    ensures { result ≡ digits_value 10 (port_digits text.now) }
{
    read_port(&text[digits_start(text)..]).unwrap()
}

// Where the digits begin with which the text ends.
fn digits_start(text: &[u8]) -> usize
    ensures { BeginDigits text.now result }
{
    let mut start = text.len();
    while start > 0 && text[start - 1].is_ascii_digit() {
        start -= 1;
    }
    start
}

// The number that the digits write, where it is a port: from 1 to 65535, and without a zero in front.
fn read_port(digits: &[u8]) -> Option<u16>
    requires { AllPass is_ascii_digit digits.now }
    ensures { SomeIff result (IsPort digits.now) (digits_value 10 digits.now) }
{
    if let [b'0', ..] = digits {
        return None;
    }
    let mut port = 0u32;
    for digit in digits {
        port = port * 10 + u32::from(*digit - b'0');
        if port > 65535 {
            return None;
        }
    }
    if port == 0 {
        return None;
    }
    Some(port as u16)
}
