// `RequestBuffer`: a worker's buffer, and the reading of one request.
ghost use Rattle.std.specs.Prelude.{◌≡◌, ◌+◌, ◌≤◌, [], length, IfOk, OnOk, OnErr};
ghost use Rattle.nsc_outside.specs.Stream.{Moves, MovesFewer};
ghost use Rattle.nsc_model.specs.Reads.{Rose};
ghost use Rattle.nsc_model.specs.Wire.{request_of};
ghost use Rattle.nsc_wire.specs.Request.{KeyFits, KeyIsIn, asked_by};
ghost use Rattle.nsc_server.specs.Requests.{GetsMore, GetsShort, IsDrainedIfShort, IsNeeded};

use nsc_base::NoMemory;
use nsc_outside::{Failed, Source, fill};
use nsc_wire::{HEAD, LONGEST, Wire, key_wanted, read_request};
use std::alloc::Global;
use std::marker::Model;

/// A worker's buffer for requests, seen in contracts as the bytes that it holds of one.
#[derive(Debug, Drop)]
pub struct RequestBuffer {
    bytes: Vec<u8>,
    have: usize,
}

impl Model for RequestBuffer {
    ghost use Rattle.std.specs.Prelude.{◌≡◌, ◌≤◌, List, ℕ, take, vec_len};

    ghost Value = { List ℕ };

    ghost view = { λ r. take r.have r.bytes.items };

    ghost invariant = { λ r. (vec_len r.bytes ≡ 1036) × (r.have ≤ 1036) };
}

impl RequestBuffer {
    /// A buffer that holds nothing. Its memory is taken here, and no request needs more. Fails only for want of memory.
    pub fn new(alloc: Global) -> Result<RequestBuffer, NoMemory>
        ensures { IfOk result (λ buffer. buffer ≡ []) }
    {
        let mut bytes = Vec::with_capacity(alloc, LONGEST)?;
        bytes.resize(LONGEST, 0)?;
        Ok(RequestBuffer { bytes, have: 0 })
    }

    // The bytes that it holds.
    pub(crate) fn bytes(&self) -> &[u8]
        ensures { result.now ≡ self.now }
    {
        &self.bytes[..self.have]
    }

    // Reads a request, no further than it is needed: one that is refused for its fields is not waited for.
    pub(crate) fn read<R: Source>(&mut self, input: &mut R) -> Result<Wire, Failed>
        ensures moved { OnOk result (Moves (R.left input.old) (R.left input.new) self.new) }
        ensures needed { OnOk result (IsNeeded self.new) }
        ensures asked { IfOk result (λ wire. asked_by self.new wire ≡ request_of self.new) }
        ensures key { IfOk result (KeyIsIn self.new) }
        ensures limit { IfOk result (KeyFits self.new) }
        ensures drained { OnOk result (IsDrainedIfShort (R.left input.new) (request_of self.new)) }
        ensures calm { OnOk result (R.faults input.new ≡ R.faults input.old) }

        ensures short { OnErr result (GetsShort (R.left input.old) (R.left input.new)) }
        ensures failed { OnErr result (Rose (R.faults input.old) (R.faults input.new)) }
    {
        self.clear();
        self.read_on(input, HEAD)?;
        let key = key_wanted(self.bytes());
        self.read_on(input, key)?;
        Ok(read_request(self.bytes()))
    }

    // Forgets the bytes that it holds.
    fn clear(&mut self)
        ensures { self.new ≡ [] }
    {
        self.have = 0;
    }

    // Reads `more` further bytes, or fewer if the input ends.
    fn read_on<R: Source>(&mut self, input: &mut R, more: usize) -> Result<(), Failed>
        requires { length self.old + more ≤ 1036 }
        ensures more { OnOk result (GetsMore (R.left input.old) (R.left input.new) self.old self.new more) }
        ensures calm { OnOk result (R.faults input.new ≡ R.faults input.old) }

        ensures fewer { OnErr result (MovesFewer (R.left input.old) (R.left input.new) more) }
        ensures failed { OnErr result (Rose (R.faults input.old) (R.faults input.new)) }
    {
        let from = self.have;
        let bytes = self.bytes.as_mut_slice();
        let got = fill(input, &mut bytes[from..from + more])?;
        self.have = from + got;
        Ok(())
    }
}
