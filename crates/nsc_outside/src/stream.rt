// `Source` and `Sink`: the traits of streams of bytes.
ghost use Rattle.std.specs.Prelude.{◌≡◌, ℕ, ◌<◌, ◌≤◌, List, Option, length, take, IfOk, OnOk, OnErr};
ghost use Rattle.nsc_outside.specs.Stream.{Moves, IsAhead, IsDrained, Grows};
ghost use Rattle.nsc_model.specs.Reads.{Rose};

use thiserror::Error;

/// A call to the outside failed, and the count of faults of the object that was called rose.
#[derive(Clone, Copy, Debug, PartialEq, Eq, Error)]
#[error("a call to the outside failed")]
pub struct Failed;

/// Bytes that come in, in order, each once.
pub trait Source {
    // The bytes that are still to come, where the source tells them.
    ghost left: { Self → Option (List ℕ) };

    // How many calls have failed; the count stops at the greatest `u64`.
    ghost faults: { Self → ℕ };

    /// Gives bytes at the front of those that are still to come, as far as they are at hand. It takes none of them, and never waits.
    fn ahead(&self) -> &[u8]
        ensures front { IsAhead (left self.now) result.now }
    {
        &[]
    }

    /// Fills the front of `buf` with the next bytes, as many as the source has at hand, and gives their number:
    /// 0 only if `buf` is empty or the source has ended. On `Failed` no byte is lost, where the source tells what is left.
    fn read(&mut self, buf: &mut [u8]) -> Result<usize, Failed>
        ensures count { IfOk result (λ n. n ≤ length buf.old) }
        ensures moved { IfOk result (λ n. Moves (left self.old) (left self.new) (take n buf.new)) }
        ensures end { IfOk result (λ n. n ≡ 0 → 0 < length buf.old → IsDrained (left self.new)) }
        ensures stays { OnErr result (left self.new ≡ left self.old) }
        ensures calm { OnOk result (faults self.new ≡ faults self.old) }
        ensures failed { OnErr result (Rose (faults self.old) (faults self.new)) };
}

/// Bytes that go out, in order.
pub trait Sink {
    // The bytes taken so far, where the sink tells them.
    ghost taken: { Self → Option (List ℕ) };

    // How many calls have failed; the count stops at the greatest `u64`.
    ghost faults: { Self → ℕ };

    /// Takes bytes from the front of `bytes` and gives their number, at least 1 if there is one.
    /// On `Failed` none is taken, where the sink tells what it took.
    fn write(&mut self, bytes: &[u8]) -> Result<usize, Failed>
        ensures count { IfOk result (λ n. n ≤ length bytes.now) }
        ensures some { IfOk result (λ n. 0 < length bytes.now → 0 < n) }
        ensures grown { IfOk result (λ n. Grows (taken self.old) (taken self.new) (take n bytes.now)) }
        ensures stays { OnErr result (taken self.new ≡ taken self.old) }
        ensures calm { OnOk result (faults self.new ≡ faults self.old) }
        ensures failed { OnErr result (Rose (faults self.old) (faults self.new)) };

    /// Takes bytes from the front of `bytes`, as many as it has room for at once, and gives their number. It never waits.
    /// On `Failed` none is taken, where the sink tells what it took.
    fn offer(&mut self, bytes: &[u8]) -> Result<usize, Failed>
        ensures count { IfOk result (λ n. n ≤ length bytes.now) }
        ensures grown { IfOk result (λ n. Grows (taken self.old) (taken self.new) (take n bytes.now)) }
        ensures stays { OnErr result (taken self.new ≡ taken self.old) }
        ensures calm { OnOk result (faults self.new ≡ faults self.old) }
        ensures failed { OnErr result (Rose (faults self.old) (faults self.new)) }
    {
        let _ = bytes;
        Ok(0)
    }
}
