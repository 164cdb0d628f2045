// Answers that are gathered before they are written.
ghost use Rattle.std.specs.Prelude.{◌≡◌, [], IfErr, IfOk, OnOk};
ghost use Rattle.nsc_outside.specs.StreamAt.{stream_out};
ghost use Rattle.nsc_client.specs.Gathered.{IsBroken, WritesPart};

use crate::gate::Gated;
use nsc_base::{Buf, NoMemory};
use nsc_outside::{Sink, write_all};
use std::alloc::Global;
use std::marker::Model;

// The limit of the buffer, in bytes.
const PENDING_LIMIT: usize = 16_384;

/// Answers that are not written yet, in a buffer of 16,384 bytes.
#[derive(Debug, Drop)]
pub(crate) struct Pending {
    buf: Buf,
}

impl Model for Pending {
    ghost use Rattle.std.specs.Prelude.{◌≡◌, List, ℕ};

    ghost Value = { List ℕ };

    ghost view = { λ p. p.buf.content };

    ghost invariant = { λ p. p.buf.limit ≡ 16384 };
}

impl Pending {
    /// Allocates an empty buffer.
    pub(crate) fn new(alloc: Global) -> Result<Pending, NoMemory>
        ensures { IfOk result (λ pending. pending ≡ []) }
    {
        Ok(Pending {
            buf: Buf::new(alloc, PENDING_LIMIT)?,
        })
    }

    /// Puts a text after the answers. If it does not fit, the answers are written first, and a text longer than the buffer at once.
    ///
    /// # Errors
    ///
    /// `WriteFault`: a front of the answers and the text may be written.
    pub(crate) fn add<K: Sink>(&mut self, conn_out: &mut K, text: &[u8]) -> Result<(), Gated>
        ensures added { OnOk result (WritesPart (stream_out K.Sink conn_out.old) (stream_out K.Sink conn_out.new) self.old self.new text.now) }
        ensures broken { IfErr result (IsBroken (stream_out K.Sink conn_out.old) (stream_out K.Sink conn_out.new) self.old text.now) }
    {
        if self.buf.fits(text.len()) {
            self.buf.push(text);
            return Ok(());
        }
        self.flush(conn_out)?;
        self.add_first(conn_out, text)
    }

    // Puts a text into the empty buffer, or writes it if it does not fit.
    fn add_first<K: Sink>(&mut self, conn_out: &mut K, text: &[u8]) -> Result<(), Gated>
        requires { self.old ≡ [] }
        ensures added { OnOk result (WritesPart (stream_out K.Sink conn_out.old) (stream_out K.Sink conn_out.new) [] self.new text.now) }
        ensures broken { IfErr result (IsBroken (stream_out K.Sink conn_out.old) (stream_out K.Sink conn_out.new) [] text.now) }
    {
        if self.buf.fits(text.len()) {
            self.buf.push(text);
            return Ok(());
        }
        write(conn_out, text)
    }

    /// Writes the answers, and empties the buffer.
    ///
    /// # Errors
    ///
    /// `WriteFault`: a front of the answers may be written.
    pub(crate) fn flush<K: Sink>(&mut self, conn_out: &mut K) -> Result<(), Gated>
        ensures emptied { OnOk result (self.new ≡ []) }
        ensures written { OnOk result (WritesPart (stream_out K.Sink conn_out.old) (stream_out K.Sink conn_out.new) self.old [] []) }
        ensures broken { IfErr result (IsBroken (stream_out K.Sink conn_out.old) (stream_out K.Sink conn_out.new) self.old []) }
    {
        write(conn_out, self.buf.bytes())?;
        self.buf.clear();
        Ok(())
    }
}

// Writes a text.
fn write<K: Sink>(conn_out: &mut K, text: &[u8]) -> Result<(), Gated>
    ensures written { OnOk result (WritesPart (stream_out K.Sink conn_out.old) (stream_out K.Sink conn_out.new) [] [] text.now) }
    ensures broken { IfErr result (IsBroken (stream_out K.Sink conn_out.old) (stream_out K.Sink conn_out.new) [] text.now) }
{
    match write_all(conn_out, text) {
        Ok(()) => Ok(()),
        Err(_) => Err(Gated::WriteFault),
    }
}
