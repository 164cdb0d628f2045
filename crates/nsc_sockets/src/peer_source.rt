// `PeerSource`: the bytes that a peer in memory sends.
ghost use Rattle.std.specs.Prelude.{◌≡◌, ◌<◌, ◌≤◌, length, min, take, Some, IfOk, IfErr, OnOk, OnErr};
ghost use Rattle.nsc_outside.specs.Stream.{Moves, IsDrained};
ghost use Rattle.nsc_model.specs.Reads.{Rose};

use nsc_base::Bytes;
use nsc_outside::{Failed, Source};
use std::marker::Model;

/// What a peer in memory sends, seen in contracts as the bytes that are still to come. No call fails.
#[derive(Debug, Drop)]
pub struct PeerSource {
    bytes: Bytes,
    next: usize,
}

impl Model for PeerSource {
    ghost use Rattle.std.specs.Prelude.{◌≤◌, List, ℕ, drop, length};

    ghost Value = { List ℕ };

    ghost view = { λ s. drop s.next s.bytes };

    ghost invariant = { λ s. s.next ≤ length s.bytes };
}

impl PeerSource {
    /// All of these bytes are to come.
    pub fn new(bytes: Bytes) -> PeerSource
        ensures { result ≡ bytes }
    {
        PeerSource { bytes, next: 0 }
    }

    /// The bytes that are still to come.
    pub fn rest(&self) -> &[u8]
        ensures { result.now ≡ self.now }
    {
        &self.bytes.as_slice()[self.next..]
    }
}

impl Source for PeerSource {
    ghost use Rattle.std.specs.Prelude.{Some};

    ghost left = { λ s. Some s };

    ghost faults = { λ _. 0 };

    /// Gives as many bytes as there are and as `buf` has room for.
    fn read(&mut self, buf: &mut [u8]) -> Result<usize, Failed>
        ensures count { IfOk result (λ n. n ≤ length buf.old) }
        ensures moved { IfOk result (λ n. Moves (Some self.old) (Some self.new) (take n buf.new)) }
        ensures end { IfOk result (λ n. n ≡ 0 → 0 < length buf.old → IsDrained (Some self.new)) }

        ensures amount { IfOk result (λ n. n ≡ min (length buf.old) (length self.old)) }
        ensures never { IfErr result (λ _. ⊥) }
    {
        let bytes = self.bytes.as_slice();
        let count = buf.len().min(bytes.len() - self.next);
        buf[..count].copy_from_slice(&bytes[self.next..self.next + count]);
        self.next += count;
        Ok(count)
    }
}
