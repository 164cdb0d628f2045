// `Link`: the trait of ways to a server of requests; and why a link gives no reply.
ghost use Rattle.std.specs.Prelude.{◌≡◌, ◌≤◌, ◌<◌, ◌^◌, ℕ, List, Result, length};
ghost use Rattle.nsc_model.specs.declared.answer.Request.{Request};
ghost use Rattle.nsc_model.specs.declared.kind.Db.{Db};
ghost use Rattle.nsc_model.specs.Entry.{key_limit};
ghost use Rattle.nsc_model.specs.Kinds.{database_of};
ghost use Rattle.nsc_client.specs.declared.link.LinkFault.{LinkFault};
ghost use Rattle.nsc_client.specs.Links.{FailsBy};

use nsc_base::Bytes;
use nsc_model::{Kind, LookupFault};
use nsc_wire::ReplyFault;
use std::alloc::Global;
use std::sync::Wait;
use thiserror::Error;

/// Why a link gave no reply.
#[derive(Clone, Copy, Debug, PartialEq, Eq, Error)]
pub enum LinkFault {
    /// Memory was short.
    #[error("out of memory")]
    NoMemory,
    /// The link itself failed, and its count of faults rose.
    #[error("the link failed")]
    Failed,
    /// Whoever was asked gave up.
    #[error("the lookup was refused: {0}")]
    Refused(LookupFault),
    /// What came is no reply.
    #[error("no reply, from byte {at} on")]
    BadReply {
        /// From which byte on it is none.
        at: usize,
    },
}

impl From<LookupFault> for LinkFault {
    ghost use Rattle.std.specs.Prelude.{◌≡◌};
    ghost use Rattle.nsc_client.specs.Links.{fault_of};

    ghost from_gives = { λ fault made. made ≡ fault_of fault };

    fn from(fault: LookupFault) -> LinkFault {
        match fault {
            LookupFault::NoMemory => LinkFault::NoMemory,
            LookupFault::Spent { .. }
            | LookupFault::SourceFault { .. }
            | LookupFault::TooLong { .. } => LinkFault::Refused(fault),
        }
    }
}

impl From<ReplyFault> for LinkFault {
    ghost use Rattle.std.specs.Prelude.{◌≡◌};
    ghost use Rattle.nsc_client.specs.Links.{fault_read};

    ghost from_gives = { λ fault made. made ≡ fault_read fault };

    fn from(fault: ReplyFault) -> LinkFault {
        match fault {
            ReplyFault::NoMemory => LinkFault::NoMemory,
            ReplyFault::BadReply { at } => LinkFault::BadReply { at },
        }
    }
}

/// A way to whoever answers requests, for callers that have passes.
pub trait Link<P> {
    // Whether it takes a pass, for requests of a database.
    ghost takes: { Self → P → Db → Type 0 };

    // What a call keeps, by the pass at entry and at exit, the request, the moment and the answer.
    ghost keeps: { Self → P → P → Request → ℕ → Result (List ℕ) LinkFault → Type 0 };

    // How many calls have failed; the count stops at the greatest `u64`.
    ghost faults: { Self → ℕ };

    /// The reply to the request of this kind and key, asked at this moment, in seconds.
    fn call<R: Wait>(
        &mut self,
        rt: &R,
        alloc: Global,
        pass: &mut P,
        kind: Kind,
        key: &[u8],
        now: u64,
    ) -> Result<Bytes, LinkFault>
        requires pass { takes self.old pass.old (database_of kind) }
        requires key { length key.now ≤ key_limit }
        requires moment { now < 2 ^ 62 }
        ensures pass { takes self.new pass.new (database_of kind) }
        ensures passes { (other : P) (which : Db) → takes self.old other which → takes self.new other which }
        ensures answer { keeps self.old pass.old pass.new (record { kind = kind; key = key.now }) now result }
        ensures failed { FailsBy (faults self.old) (faults self.new) result };
}
