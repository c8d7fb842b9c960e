//! Room for the longest message.

ghost use Rattle.std.specs.Prelude.{◌≡◌, length};

use nsq_base::Memory;
use std::alloc::Global;

#[derive(Drop)]
pub struct Room {
    pub bytes: Vec<u8>,
    ghost whole: { length bytes.items ≡ 16777242 },
}

impl Room {
    pub fn new(alloc: Global) -> Result<Room, Memory> {
        Ok(Room {
            bytes: vec![in alloc; 0; 16_777_242]?,
        })
    }
}
