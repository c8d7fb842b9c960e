ghost use Rattle.std.specs.Prelude.{◌≡◌, ◌+◌, ◌/◌, ◌%◌, ◌^◌, ◌<◌, length, SomeIff};
ghost use Rattle.nsq_base.specs.MsgId.{hex_digit, hex_digits, id_of};

use std::marker::Model;

/// A message's id: 16 bytes. A daemon gives each of its messages another one.
#[derive(Clone, Copy, PartialEq, Eq, PartialOrd, Ord, Hash)]
pub struct MsgId {
    bytes: [u8; 16],
}

impl Model for MsgId {
    ghost use Rattle.std.specs.Prelude.{ℕ, List};

    ghost Value = { List ℕ };

    ghost view = { λ id. id.bytes };

    ghost inverse = { λ bytes. record { bytes = bytes } };
}

impl MsgId {
    /// The id of the `n`-th message of a run: six lower-case hexadecimal digits of the run's epoch and ten of `n`, most
    /// significant first.
    pub fn make(epoch: u32, n: u64) -> MsgId
        requires epoch { epoch < 2 ^ 24 }
        requires number { n < 2 ^ 40 }
        ensures { result ≡ id_of epoch n }
    {
        let mut bytes = [0; 16];
        write_hex(&mut bytes[..6], u64::from(epoch));
        write_hex(&mut bytes[6..], n);
        MsgId { bytes }
    }

    /// The id that the bytes are, or None exactly where there aren't 16.
    pub fn read(bytes: &[u8]) -> Option<MsgId>
        ensures { SomeIff result (length bytes.now ≡ 16) bytes.now }
    {
        let bytes = bytes.try_into().ok()?;
        Some(MsgId { bytes })
    }

    /// The id's 16 bytes.
    pub fn bytes(&self) -> &[u8]
        ensures value { result.now ≡ self.now }
        ensures len { length result.now ≡ 16 }
    {
        &self.bytes
    }
}

// Fills the slice with the lowest hexadecimal digits of a number, most significant first.
fn write_hex(out: &mut [u8], n: u64)
    ensures { out.new ≡ hex_digits (length out.old) n }
{
    let mut left = n;
    let mut i = out.len();
    while i > 0 {
        i -= 1;
        out[i] = hex_digit((left % 16) as u8);
        left /= 16;
    }
}

// The lower-case hexadecimal digit.
fn hex_digit(n: u8) -> u8
    requires { n < 16 }
    ensures { result ≡ hex_digit n }
{
    if n < 10 { b'0' + n } else { b'a' + (n - 10) }
}
