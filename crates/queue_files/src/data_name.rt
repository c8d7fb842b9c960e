ghost use Rattle.std.specs.Prelude.{◌≡◌, ◌+◌, ◌-◌, ◌≤◌, IfOk, string_bytes, string_capacity, length, replicate};
ghost use Rattle.queue_image.specs.FileNames.{data_file};

use itoa::Buffer;
use nsq_core::Memory;
use std::alloc::Global;
use std::marker::Model;

/// The name of one of a queue's data files, in room that was made for all of them.
#[derive(Drop)]
pub struct DataName {
    // The queue's name.
    queue: String,
    // The file's number.
    number: u64,
    // The file's name.
    text: String,
}

impl Model for DataName {
    ghost use Rattle.std.specs.Prelude.{◌≡◌, ◌+◌, ◌≤◌, string_bytes, string_capacity, length};
    ghost use Rattle.queue_image.specs.FileNames.{data_file};
    ghost use Rattle.queue_files.specs.FileCalls.{DataFile};

    ghost Value = { DataFile };

    ghost view = { λ d. record { name = string_bytes d.queue; number = d.number } };

    ghost invariant = { λ d. (string_bytes d.text ≡ data_file (string_bytes d.queue) d.number) × (length (string_bytes d.queue) + 35 ≤ string_capacity d.text) };
}

impl DataName {
    /// The name of data file 0 of a queue.
    pub fn new(alloc: Global, name: &str) -> Result<DataName, Memory>
        ensures { IfOk result (λ file. file ≡ record { name = name.now; number = 0 }) }
    {
        let queue = String::from_str(alloc, name)?;
        let mut text = String::with_capacity(alloc, name.len() + ROOM)?;
        spell(&mut text, name, 0);
        Ok(DataName {
            queue,
            number: 0,
            text,
        })
    }

    /// Goes to the name of the data file of that number. Takes no memory.
    pub fn turn_to(&mut self, number: u64)
        ensures { self.new ≡ record { name = self.old.name; number = number } }
    {
        if number == self.number {
            return;
        }
        spell(&mut self.text, self.queue.as_str(), number);
        self.number = number;
    }

    /// The file's name.
    pub fn as_str(&self) -> &str
        ensures { result.now ≡ data_file self.now.name self.now.number }
    {
        self.text.as_str()
    }
}

// How much longer than the queue's name the name of a data file may be.
const ROOM: usize = 35;

// Spells the name of a queue's data file, in room that is there.
fn spell(text: &mut String, name: &str, number: u64)
    requires { length name.now + 35 ≤ string_capacity text.old }
    ensures name { string_bytes text.new ≡ data_file name.now number }
    ensures room { string_capacity text.old ≤ string_capacity text.new }
{
    let mut buffer = Buffer::new();
    let digits = buffer.format(number);
    text.clear();
    let _ = text.push_str(name);
    let _ = text.push_str(".diskqueue.");
    let _ = text.push_str(zeros_before(digits.len()));
    let _ = text.push_str(digits);
    let _ = text.push_str(".dat");
}

// The zeros in front of so many digits, up to six.
fn zeros_before(digits: usize) -> &'static str
    ensures { result.now ≡ replicate (6 - digits) 48 }
{
    match digits {
        0 => "000000",
        1 => "00000",
        2 => "0000",
        3 => "000",
        4 => "00",
        5 => "0",
        _ => "",
    }
}
