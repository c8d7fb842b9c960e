ghost use Rattle.std.specs.Prelude.{◌≡◌, ◌↔◌, IsTrue};

/// Where a queue reads and where it writes. A position is the number of a data file and a place in it, counted in bytes
/// from the file's start.
#[derive(Clone, Copy, PartialEq)]
pub struct Positions {
    /// The number of the file that is read.
    pub read_file: u64,
    /// The place in it of the next record that is read.
    pub read_at: u64,
    /// The number of the file that is written.
    pub write_file: u64,
    /// The place in it behind the last record of the list.
    pub write_at: u64,
}

impl Positions {
    ghost use Rattle.queue_image.specs.Places.{IsOrdered, IsAtEnd, part_start, part_end};

    /// Whether the read position isn't past the write position.
    pub(crate) fn in_order(&self) -> bool
        ensures { IsTrue result ↔ IsOrdered self.now }
    {
        self.read_file < self.write_file
            || self.read_file == self.write_file && self.read_at <= self.write_at
    }

    /// Whether the two positions are the same.
    pub fn at_end(&self) -> bool
        ensures { IsTrue result ↔ IsAtEnd self.now }
    {
        self.read_file == self.write_file && self.read_at == self.write_at
    }

    /// Where the queue's part of the file of that number begins: the read position in the read file, else 0.
    pub fn start_in(&self, file: u64) -> u64
        ensures { result ≡ part_start self.now file }
    {
        if file == self.read_file {
            self.read_at
        } else {
            0
        }
    }

    /// Where the queue's part of the file of that number, which has so many bytes, ends: the write position in the write file,
    /// else the file's end.
    pub fn end_in(&self, file: u64, len: u64) -> u64
        ensures { result ≡ part_end self.now file len }
    {
        if file == self.write_file {
            self.write_at
        } else {
            len
        }
    }
}
