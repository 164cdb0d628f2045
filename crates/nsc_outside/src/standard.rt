// `StdSource` and `StdSink`: streams over readers and writers of the standard library.
ghost use Rattle.std.specs.Prelude.{◌≡◌, ◌<◌, ◌≤◌, length, take, IfOk, OnOk, OnErr};
ghost use Rattle.std.specs.Io.KnownBytes.{Keeps, Consumes, Appends, IsAtEnd};
ghost use Rattle.nsc_model.specs.Reads.{Rose};

use crate::stream::{Failed, Sink, Source};
use std::io::{Read, Write};
use std::marker::Model;

/// A source over a reader of the standard library. Callers that take any source are told nothing of its
/// bytes; contracts see what the reader tells of them, and the count of faults.
#[derive(Debug, Drop)]
pub struct StdSource<R: Read> {
    reader: R,
    faults: u64,
}

impl<R: Read> Model for StdSource<R> {
    ghost use Rattle.nsc_outside.specs.StdStream.{StdStream};

    ghost Value = { StdStream };

    ghost view = { λ s. record { bytes = R.remaining s.reader; faults = s.faults } };
}

impl<R: Read> StdSource<R> {
    /// A source over this reader, at which no call has failed.
    pub fn new(reader: R) -> StdSource<R>
        ensures { result ≡ record { bytes = R.remaining reader; faults = 0 } }
    {
        StdSource { reader, faults: 0 }
    }

    /// How many calls have failed; the count stops at the greatest `u64`.
    pub fn faults(&self) -> u64
        ensures { result ≡ self.now.faults }
    {
        self.faults
    }
}

impl<R: Read> Source for StdSource<R> {
    ghost use Rattle.std.specs.Prelude.{None};

    ghost left = { λ _. None };

    ghost faults = { λ s. s.faults };

    /// One call of the reader. Each of its errors is a failure, one that tells of an interruption too.
    #[tactic(auto, using(crate::proofs::Memories::rose_risen))]
    fn read(&mut self, buf: &mut [u8]) -> Result<usize, Failed>
        ensures count { IfOk result (λ n. n ≤ length buf.old) }
        ensures calm { OnOk result (self.new.faults ≡ self.old.faults) }
        ensures failed { OnErr result (Rose self.old.faults self.new.faults) }

        // What the reader tells.
        ensures consumed { IfOk result (λ n. Consumes self.old.bytes self.new.bytes (take n buf.new)) }
        ensures at_end { IfOk result (λ n. n ≡ 0 → 0 < length buf.old → IsAtEnd self.new.bytes) }
        ensures kept { OnErr result (Keeps self.old.bytes self.new.bytes) }
    {
        let Ok(count) = self.reader.read(buf) else {
            self.faults = self.faults.saturating_add(1);
            return Err(Failed);
        };
        Ok(count)
    }
}

/// A sink over a writer of the standard library. Callers that take any sink are told nothing of its
/// bytes; contracts see what the writer tells of them, and the count of faults.
#[derive(Debug, Drop)]
pub struct StdSink<W: Write> {
    writer: W,
    faults: u64,
}

impl<W: Write> Model for StdSink<W> {
    ghost use Rattle.nsc_outside.specs.StdStream.{StdStream};

    ghost Value = { StdStream };

    ghost view = { λ s. record { bytes = W.contents s.writer; faults = s.faults } };
}

impl<W: Write> StdSink<W> {
    /// A sink over this writer, at which no call has failed.
    pub fn new(writer: W) -> StdSink<W>
        ensures { result ≡ record { bytes = W.contents writer; faults = 0 } }
    {
        StdSink { writer, faults: 0 }
    }

    /// How many calls have failed; the count stops at the greatest `u64`.
    pub fn faults(&self) -> u64
        ensures { result ≡ self.now.faults }
    {
        self.faults
    }
}

impl<W: Write> Sink for StdSink<W> {
    ghost use Rattle.std.specs.Prelude.{None};

    ghost taken = { λ _. None };

    ghost faults = { λ s. s.faults };

    /// One call of the writer and one flush, so that the bytes are out when the call is back. Each of the writer's
    /// errors is a failure, one that tells of an interruption too, and so is a writer that takes none of the bytes that
    /// it is offered. Where the flush fails, the writer may hold the bytes.
    #[tactic(auto, using(crate::proofs::Memories::rose_risen))]
    fn write(&mut self, bytes: &[u8]) -> Result<usize, Failed>
        ensures count { IfOk result (λ n. n ≤ length bytes.now) }
        ensures some { IfOk result (λ n. 0 < length bytes.now → 0 < n) }
        ensures calm { OnOk result (self.new.faults ≡ self.old.faults) }
        ensures failed { OnErr result (Rose self.old.faults self.new.faults) }

        // What the writer tells.
        ensures appended { IfOk result (λ n. Appends self.old.bytes self.new.bytes (take n bytes.now)) }
    {
        let outcome = write_out(&mut self.writer, bytes);
        if outcome.is_err() {
            self.faults = self.faults.saturating_add(1);
        }
        outcome
    }
}

// One write and one flush.
fn write_out<W: Write>(writer: &mut W, bytes: &[u8]) -> Result<usize, Failed>
    ensures count { IfOk result (λ n. n ≤ length bytes.now) }
    ensures some { IfOk result (λ n. 0 < length bytes.now → 0 < n) }
    ensures appended { IfOk result (λ n. Appends (W.contents writer.old) (W.contents writer.new) (take n bytes.now)) }
{
    let Ok(count) = writer.write(bytes) else {
        return Err(Failed);
    };
    if count == 0 && !bytes.is_empty() {
        return Err(Failed);
    }
    let Ok(()) = writer.flush() else {
        return Err(Failed);
    };
    Ok(count)
}
