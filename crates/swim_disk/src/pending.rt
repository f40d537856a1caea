//! The bytes of a file that wait for a disk.

ghost use Rattle.std.specs.Prelude.{◌≡◌, ◌+◌, ◌++◌, ◌≤◌, ◌==◌, ◌↔◌, [], IfOk, IsTrue, if◌then◌else◌, length, min, take};

use circular_buffer::HeapCircularBuffer;
use std::alloc::{AllocError, Global};
use std::marker::Model;

/// How many bytes of a file may wait.
pub const FILE_BYTES: usize = 262_144;

/// The bytes of a file that wait for a disk, oldest first. They take their memory once. A contract sees them.
#[derive(Drop)]
pub struct Pending {
    bytes: HeapCircularBuffer<u8>,
}

impl Model for Pending {
    ghost use Rattle.std.specs.Prelude.{◌≡◌, ℕ, List};

    ghost Value = { List ℕ };

    ghost view = { λ p. p.bytes.items };

    ghost invariant = { λ p. p.bytes.capacity ≡ 262144 };
}

impl Pending {
    /// None wait yet.
    pub fn new(alloc: Global) -> Result<Pending, AllocError>
        ensures { IfOk result (λ pending. pending ≡ []) }
    {
        let bytes = HeapCircularBuffer::with_capacity(alloc, FILE_BYTES)?;
        Ok(Pending { bytes })
    }

    /// Whether none wait.
    pub fn is_empty(&self) -> bool
        ensures { result ≡ (length self.now == 0) }
    {
        self.bytes.is_empty()
    }

    /// Whether there is room for so many more.
    pub fn has_room(&self, count: usize) -> bool
        ensures { IsTrue result ↔ (length self.now + count ≤ FILE_BYTES) }
    {
        count <= FILE_BYTES - self.bytes.len()
    }

    /// Adds a text, all of it or, where there is no room for it, nothing.
    pub fn add(&mut self, text: &[u8]) -> bool
        ensures room { IsTrue result ↔ (length self.old + length text.now ≤ FILE_BYTES) }
        ensures bytes { self.new ≡ (if result then self.old ++ text.now else self.old) }
    {
        if !self.has_room(text.len()) {
            return false;
        }
        let _count = self.bytes.fill_from_slice(text);
        true
    }

    /// Takes the first ones, as many as the page holds, and answers how many these are.
    pub fn take(&mut self, page: &mut [u8]) -> usize
        ensures count { result ≡ min (length page.old) (length self.old) }
        ensures bytes { self.old ≡ take result page.new ++ self.new }
        ensures page { length page.new ≡ length page.old }
    {
        self.bytes.read_into(page)
    }

    /// Forgets them.
    pub fn clear(&mut self)
        ensures { self.new ≡ [] }
    {
        self.bytes.clear();
    }
}
