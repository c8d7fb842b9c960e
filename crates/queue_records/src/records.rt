ghost use Rattle.std.specs.Prelude.{◌≡◌, ◌<◌, length, IfOk};
ghost use Rattle.queue_records.specs.Answered.{SplitsInto, StandsFirst};

use nsq_base::{Bodies, Body, Memory};
use std::alloc::Global;

/// What bytes are that should be a row of records.
#[derive(Drop)]
pub enum Row {
    /// A row of records with these bodies.
    Whole(Bodies),
    /// Good records up to a place, counted in bytes from the start, where no record stands.
    Damaged {
        /// The place of what is no record.
        place: usize,
        /// The size that is read there; 0 where fewer than four bytes are left.
        size: u32,
    },
}

/// The bodies of the records in a row, each a size of 4 bytes, big-endian, and that many bytes; or the first place where the bytes
/// are no record: fewer than four bytes are left, or the size is outside `least` to `limit` or more than what is left.
pub fn records_of(alloc: Global, bytes: &[u8], least: u32, limit: u32) -> Result<Row, Memory>
    ensures { IfOk result (λ row. SplitsInto least limit bytes.now row) }
{
    let mut bodies = Bodies::new(alloc);
    let mut place = 0;
    while place < bytes.len() {
        match first_record(&bytes[place..], least, limit) {
            First::Record(body) => {
                bodies.push(Body::copy(alloc, body)?)?;
                place += 4 + body.len();
            }
            First::Damage(size) => return Ok(Row::Damaged { place, size }),
        }
    }
    Ok(Row::Whole(bodies))
}

/// What stands first in bytes.
#[derive(Clone, Copy)]
pub enum First<'a> {
    /// A record with this body.
    Record(&'a [u8]),
    /// No record, and this size is read.
    Damage(u32),
}

// The record that stands first in the bytes, or the size where none does.
fn first_record(bytes: &[u8], least: u32, limit: u32) -> First<'_>
    requires { 0 < length bytes.now }
    ensures { StandsFirst least limit bytes.now result }
{
    let Some((size, rest)) = bytes.split_first_chunk::<4>() else {
        return First::Damage(0);
    };
    let size = u32::from_be_bytes(*size);
    if size < least || size > limit {
        return First::Damage(size);
    }
    match rest.get(..size as usize) {
        Some(body) => First::Record(body),
        None => First::Damage(size),
    }
}
