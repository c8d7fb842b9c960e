ghost use Rattle.std.specs.Prelude.{◌≡◌, ◌+◌, ◌≤◌, [], ◌∷◌, ◌++◌, vec_len, vec_capacity};
ghost use Rattle.queue_image.specs.Metas.{meta_text};

use itoa::{Buffer, Integer};
use queue_image::Positions;

/// How long a metadata text may be.
pub const ROOM: usize = 205;

/// Writes the metadata's text, in room that is there.
pub fn write_text(text: &mut Vec<u8>, depth: u128, positions: Positions)
    requires { 205 ≤ vec_capacity text.old }
    ensures text { text.new.items ≡ meta_text depth positions }
    ensures room { vec_capacity text.old ≤ vec_capacity text.new }
{
    text.clear();
    push_number(text, depth, b'\n');
    push_number(text, positions.read_file, b',');
    push_number(text, positions.read_at, b'\n');
    push_number(text, positions.write_file, b',');
    push_number(text, positions.write_at, b'\n');
}

// Appends a number and a byte, in room that is there.
fn push_number<I: Integer>(text: &mut Vec<u8>, number: I, end: u8)
    requires { vec_len text.old + 41 ≤ vec_capacity text.old }
    ensures text { text.new.items ≡ text.old.items ++ I.text number ++ end ∷ [] }
    ensures length { vec_len text.new ≤ vec_len text.old + 41 }
    ensures room { vec_capacity text.old ≤ vec_capacity text.new }
{
    let mut buffer = Buffer::new();
    let _ = text.extend_from_slice(buffer.format(number).as_bytes());
    let _ = text.push(end);
}
