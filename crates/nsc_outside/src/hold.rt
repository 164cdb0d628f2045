// `Hold`: which reads of `HeldFiles` wait, and until when.
ghost use Rattle.std.specs.Prelude.{◌≡◌, [], IfOk, is_err};
ghost use Rattle.std.specs.Option.{option_map};
ghost use Rattle.nsc_outside.specs.Hold.{shared_gate, Meets, MeetsAny};

use crate::numbers::Numbering;
use crate::release::Release;
use crate::stream::Failed;
use nsc_base::NoMemory;
use nsc_model::FileId;
use std::alloc::Global;
use std::marker::Model;
use std::time::Clock;

/// Which reads of a `HeldFiles` wait, and until when.
#[derive(Drop)]
pub struct Hold {
    /// Of this file.
    pub file: FileId,
    /// From the read with this number on. The reads of the file are numbered from 1 on, over all sets that were split
    /// from one.
    pub from: u64,
    /// A read that begins to wait sets this.
    pub reached: Release,
    /// Until this is set. A read that has waited for 10,000 turns of a millisecond fails.
    pub until: Release,
}

// A hold, and the numbers of the reads of its file.
#[derive(Drop)]
pub(crate) struct Gate {
    hold: Hold,
    numbering: Numbering,
}

impl Model for Gate {
    ghost use Rattle.nsc_outside.specs.Hold.{Gate};

    ghost Value = { Gate };

    ghost view = { λ g. record { hold = g.hold; numbering = g.numbering.table; numbers = g.numbering.numbers } };
}

impl Gate {
    // No read was made so far.
    pub(crate) fn new(alloc: Global, hold: Hold) -> Result<Gate, NoMemory>
        ensures { IfOk result (λ gate. gate ≡ record { hold = hold; numbering = gate.numbering; numbers = [] }) }
    {
        Ok(Gate {
            hold,
            numbering: Numbering::new(alloc)?,
        })
    }

    // The same hold, which numbers its reads together with this one.
    pub(crate) fn share(&self) -> Result<Gate, NoMemory>
        ensures { IfOk result (λ gate. gate ≡ shared_gate self.now) }
    {
        let hold = Hold {
            file: self.hold.file,
            from: self.hold.from,
            reached: self.hold.reached.share()?,
            until: self.hold.until.share()?,
        };
        Ok(Gate {
            hold,
            numbering: self.numbering.share()?,
        })
    }

    // Lets a read of a file pass, at once or after a wait, or fails where that took too long.
    fn pass<R: Clock>(&mut self, clock: &R, file: FileId) -> Result<(), Failed>
        ensures { Meets file self.old self.new (is_err result) }
    {
        if file != self.hold.file {
            return Ok(());
        }
        if self.numbering.draw() < self.hold.from {
            return Ok(());
        }
        self.hold.reached.set();
        if self.hold.until.wait(clock) {
            Ok(())
        } else {
            Err(Failed)
        }
    }
}

// The same hold, if there is one.
pub(crate) fn share_gate(gate: &Option<Gate>) -> Result<Option<Gate>, NoMemory>
    ensures { IfOk result (λ shared. shared ≡ option_map shared_gate gate.now) }
{
    match gate {
        None => Ok(None),
        Some(gate) => Ok(Some(gate.share()?)),
    }
}

// Lets a read of a file pass the hold, if there is one.
pub(crate) fn pass<R: Clock>(gate: &mut Option<Gate>, clock: &R, file: FileId) -> Result<(), Failed>
    ensures { MeetsAny file gate.old gate.new (is_err result) }
{
    match gate {
        None => Ok(()),
        Some(gate) => gate.pass(clock, file),
    }
}
