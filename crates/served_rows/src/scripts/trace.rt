//! The order in which calls of several objects come.
use nsq_base::Memory;
use std::alloc::Global;
use std::sync::atomic::{AtomicU64, Ordering};

/// The letters of calls in the order in which they come, whoever makes them. Those past its room are lost.
#[derive(Drop)]
pub struct Trace {
    next: AtomicU64,
    letters: Vec<AtomicU64>,
}

impl Trace {
    /// A trace without letters, with room for so many.
    pub fn new(alloc: Global, room: usize) -> Result<Trace, Memory> {
        let mut letters = Vec::new(alloc);
        for _ in 0..room {
            letters.push(AtomicU64::new(0))?;
        }
        Ok(Trace {
            next: AtomicU64::new(0),
            letters,
        })
    }

    /// Keeps the letter of a call.
    pub fn note(&self, letter: u8) {
        let at = self.next.fetch_add(1, Ordering::SeqCst);
        if let Some(place) = self.letters.get(at as usize) {
            place.store(u64::from(letter), Ordering::SeqCst);
        }
    }

    /// The letters so far.
    pub fn letters(&self, alloc: Global) -> Result<Vec<u8>, Memory> {
        let mut letters = Vec::new(alloc);
        for place in &self.letters {
            let letter = place.load(Ordering::SeqCst);
            if letter != 0 {
                letters.push(u8::try_from(letter).unwrap_or(b'?'))?;
            }
        }
        Ok(letters)
    }
}
