// Admission of a request by the role of its socket and the scope of its database.
ghost use Rattle.std.specs.Prelude.{◌≡◌, IfErr, IfOk, None, false, true};
ghost use Rattle.nsc_model.specs.Kinds.{database_of};
ghost use Rattle.nsc_server.specs.Admitted.{IsAdmitted, IsNotAdmitted};
ghost use Rattle.nsc_server.specs.Requests.{denial_on};
ghost use Rattle.nsc_server.specs.Scopes.{is_left, scope_in};

use crate::scope::Scopes;
use crate::served::{Closing, Served};
use nsc_base::Span;
use nsc_model::Kind;
use nsc_sockets::Role;
use nsc_wire::Wire;

// A request that has a reply.
#[derive(Clone, Copy, Debug, PartialEq, Eq)]
pub(crate) enum Admitted {
    // A lookup.
    Look { kind: Kind, key: Span },
    // A database of this name is to be emptied.
    Invalidate { key: Span },
    // The counts are to be told.
    Stat,
    // The daemon is to end.
    ShutDown,
}

// Whether what was read may be asked on a socket of this role, and has a reply. A lookup may be left to who asks.
pub(crate) fn admit(wire: Wire, role: Role, scopes: Scopes) -> Result<Admitted, Served>
    ensures admitted { IfOk result (IsAdmitted scopes role wire) }
    ensures refused { IfErr result (IsNotAdmitted scopes role wire) }
{
    match wire {
        Wire::Request { kind, key } => looking(scopes, kind, key),
        Wire::Invalidate { key } => controlling(role, Admitted::Invalidate { key }),
        Wire::Stat => controlling(role, Admitted::Stat),
        Wire::Shutdown => controlling(role, Admitted::ShutDown),
        Wire::Descriptor => Err(Served::Closed(Closing::Descriptor)),
        Wire::Netgroup => Err(Served::Closed(Closing::Netgroup)),
        Wire::Short { have } => Err(Served::Ended { have }),
        Wire::BadVersion(version) => Err(Served::Closed(Closing::BadVersion(version))),
        Wire::BadType(number) => Err(Served::Closed(Closing::BadType(number))),
        Wire::BadLength(length) => Err(Served::Closed(Closing::BadLength(length))),
    }
}

// Whether a lookup is answered, and not left to who asks.
fn looking(scopes: Scopes, kind: Kind, key: Span) -> Result<Admitted, Served>
    ensures admitted { IfOk result (λ it. (it ≡ Admitted.Look kind key) × (is_left (scope_in scopes (database_of kind)) kind ≡ false)) }
    ensures refused { IfErr result (λ served. (served ≡ Served.Closed Closing.Left) × (is_left (scope_in scopes (database_of kind)) kind ≡ true)) }
{
    if scopes.leaves(kind) {
        Err(Served::Closed(Closing::Left))
    } else {
        Ok(Admitted::Look { kind, key })
    }
}

// As `looking`, of a request that controls the daemon: the admin socket alone takes it.
fn controlling(role: Role, admitted: Admitted) -> Result<Admitted, Served>
    ensures admitted { IfOk result (λ it. (it ≡ admitted) × (denial_on role ≡ None)) }
    ensures refused { IfErr result (λ served. (served ≡ Served.Closed Closing.RoleDenied) × (denial_on role ≡ Some Closing.RoleDenied)) }
{
    match role {
        Role::Admin => Ok(admitted),
        Role::Plain | Role::Gate => Err(Served::Closed(Closing::RoleDenied)),
    }
}

impl Admitted {
    ghost use Rattle.std.specs.Prelude.{List, ℕ};
    ghost use Rattle.nsc_wire.specs.Request.{asked_by};
    ghost use Rattle.nsc_server.specs.Admitted.{wire_of};
    ghost use Rattle.nsc_server.specs.Outcomes.{replied_to};

    // What comes of the connection once the reply is written.
    pub(crate) fn replied(&self) -> Served
        ensures { (bytes : List ℕ) → result ≡ replied_to (asked_by bytes (wire_of self.now)) }
    {
        match self {
            Admitted::ShutDown => Served::ShutDown,
            Admitted::Look { .. } | Admitted::Invalidate { .. } | Admitted::Stat => Served::Replied,
        }
    }
}
