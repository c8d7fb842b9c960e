ghost use Rattle.std.specs.Prelude.{◌≡◌, ◌^◌, ◌<◌, ◌↔◌, ℕ, List, IsTrue, MatchOption, Some, replicate};
ghost use Rattle.queue_image.specs.FileNames.{file_digits};
ghost use Rattle.queue_sweep.specs.Forms.{IsDataFileOf, HasForm, IsFileNumber, IsLastAt};

use itoa::Buffer;

/// What stands before `.diskqueue.` where the name has the form of a queue's data file or metadata; None exactly where it has
/// neither. It needn't be the name of a queue.
pub fn stem_of(file: &[u8]) -> Option<&[u8]>
    ensures { MatchOption result ((name : List ℕ) → ¬ HasForm name file.now) (λ stem. HasForm stem.now file.now) }
{
    match file.strip_suffix(b".diskqueue.meta.dat") {
        Some(stem) => Some(stem),
        None => data_stem(file),
    }
}

// The same of a data file alone.
fn data_stem(file: &[u8]) -> Option<&[u8]>
    ensures { MatchOption result ((name : List ℕ) → ¬ IsDataFileOf name file.now) (λ stem. IsDataFileOf stem.now file.now) }
{
    let Some(rest) = file.strip_suffix(b".dat") else {
        return None;
    };
    let Some(dot) = last_dot(rest) else {
        return None;
    };
    if !is_file_number(&rest[dot + 1..]) {
        return None;
    }
    rest[..dot].strip_suffix(b".diskqueue")
}

// The place of the last dot; None exactly where there is none.
fn last_dot(text: &[u8]) -> Option<usize>
    ensures { IsLastAt 46 text.now result }
{
    text.iter().rposition(|byte| *byte == b'.')
}

// The digits of a number below 2^64, with zeros in front up to six digits, and with none where it has six of its own.
fn is_file_number(digits: &[u8]) -> bool
    ensures { IsTrue result ↔ IsFileNumber digits.now }
{
    let Some(number) = number_in(digits) else {
        return false;
    };
    let mut buffer = Buffer::new();
    let plain = buffer.format(number).as_bytes();
    match digits.strip_suffix(plain) {
        Some(zeros) => are_zeros(zeros, 6usize.saturating_sub(plain.len())),
        None => false,
    }
}

// The number that the digits spell, if they are those of a data file's number; else any.
fn number_in(digits: &[u8]) -> Option<u64>
    ensures { (n : ℕ) → n < 2 ^ 64 → digits.now ≡ file_digits n → result ≡ Some n }
{
    let Ok(text) = std::str::from_utf8(digits) else {
        return None;
    };
    match text.parse::<u64>() {
        Ok(number) => Some(number),
        Err(_) => None,
    }
}

// Whether the bytes are so many zeros.
fn are_zeros(bytes: &[u8], count: usize) -> bool
    ensures { IsTrue result ↔ (bytes.now ≡ replicate count 48) }
{
    if bytes.len() != count {
        return false;
    }
    bytes.iter().all(|byte| *byte == b'0')
}
