// `Buf`: a byte buffer of a fixed capacity.
ghost use Rattle.std.specs.Prelude.{◌≡◌, ◌↔◌, ◌+◌, ◌≤◌, ◌++◌, [], length, IfOk, IsTrue};

use crate::memory::NoMemory;
use std::alloc::Global;
use std::marker::Model;

/// A buffer of bytes with a fixed room. Its memory is taken when it is made, and no later call takes any.
#[derive(Debug, Drop)]
pub struct Buf {
    bytes: Vec<u8>,
    limit: usize,
}

impl Model for Buf {
    ghost use Rattle.std.specs.Prelude.{◌≤◌, length};
    ghost use Rattle.std.specs.Vec.{vec_capacity};
    ghost use Rattle.nsc_base.specs.Buf.{Buf};

    ghost Value = { Buf };

    ghost view = { λ b. record { content = b.bytes.items; limit = b.limit } };

    ghost invariant = { λ b. (length b.bytes.items ≤ b.limit) × (b.limit ≤ vec_capacity b.bytes) };
}

impl Buf {
    /// An empty buffer with room for `limit` bytes. Fails only for want of memory.
    pub fn new(alloc: Global, limit: usize) -> Result<Buf, NoMemory>
        ensures { IfOk result (λ buf. buf ≡ record { content = []; limit = limit }) }
    {
        Ok(Buf {
            bytes: Vec::with_capacity(alloc, limit)?,
            limit,
        })
    }

    /// Whether `n` more bytes fit.
    pub fn fits(&self, n: usize) -> bool
        ensures { IsTrue result ↔ (length self.now.content + n ≤ self.now.limit) }
    {
        n <= self.limit - self.bytes.len()
    }

    /// Puts bytes after those that are there. The caller knows that they fit.
    pub fn push(&mut self, bytes: &[u8])
        requires { length self.old.content + length bytes.now ≤ self.old.limit }
        ensures { self.new ≡ record { content = self.old.content ++ bytes.now; limit = self.old.limit } }
    {
        self.bytes.extend_from_slice(bytes).unwrap();
    }

    /// Empties the buffer. It keeps its room.
    pub fn clear(&mut self)
        ensures { self.new ≡ record { content = []; limit = self.old.limit } }
    {
        self.bytes.clear();
    }

    /// The bytes that the buffer holds, lent. They are no more than its room.
    pub fn bytes(&self) -> &[u8]
        ensures content { result.now ≡ self.now.content }
        ensures within { length result.now ≤ self.now.limit }
    {
        self.bytes.as_slice()
    }
}
