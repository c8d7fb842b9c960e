ghost use Rattle.std.specs.Prelude.{◌≡◌, ◌<◌, ◌≤◌, ◌^◌};
ghost use Rattle.queue_image.specs.Answered.{ReadsMeta, BeginsWithNumber};

use crate::Positions;
use crate::decimals::{leading_digits, value_up_to};

/// The greatest number of a data file.
pub const LAST_FILE: u64 = 1 << 40;

/// The greatest place in a data file.
pub const LAST_PLACE: u64 = 1 << 62;

/// The positions that a metadata text gives; None exactly where the text isn't
/// `depth\nreadfile,readpos\nwritefile,writepos\n` with 1 to 40 digits each, files up to 2^40, positions up to 2^62, and the read
/// position not past the write position. The depth isn't trusted: any number is accepted, and it is left out.
pub fn read_meta(text: &[u8]) -> Option<Positions>
    ensures { ReadsMeta text.now result }
{
    let depth = leading_digits(text, b'\n')?;
    let read_file = leading_number(depth.rest, b',', LAST_FILE)?;
    let read_at = leading_number(read_file.rest, b'\n', LAST_PLACE)?;
    let write_file = leading_number(read_at.rest, b',', LAST_FILE)?;
    let write_at = leading_number(write_file.rest, b'\n', LAST_PLACE)?;
    let positions = Positions {
        read_file: read_file.value,
        read_at: read_at.value,
        write_file: write_file.value,
        write_at: write_at.value,
    };
    if !write_at.rest.is_empty() {
        return None;
    }
    if !positions.in_order() {
        return None;
    }
    Some(positions)
}

/// A number at the head of a text, and what stands behind the separator that ends it.
#[derive(Clone, Copy)]
pub struct Number<'a> {
    /// The number.
    pub value: u64,
    /// What stands behind the separator.
    pub rest: &'a [u8],
}

// The number up to the separator; None where the text doesn't begin with 1 to 40 digits and the separator, or the number is too great.
fn leading_number(text: &[u8], separator: u8, most: u64) -> Option<Number<'_>>
    requires { separator < 48 }
    ensures { BeginsWithNumber text.now separator most result }
{
    let field = leading_digits(text, separator)?;
    let value = value_up_to(field.digits, most)?;
    Some(Number {
        value,
        rest: field.rest,
    })
}
