// `decide`: the services of a list asked in turn, by the action at each status.
ghost use Rattle.std.specs.Prelude.{◌≡◌, ◌∷◌, ◌++◌, [], IfOk};
ghost use Rattle.nsc_model.specs.Answers.{is_joined, joined, merges, switched, takers};
ghost use Rattle.nsc_model.specs.Services.{action_at};
ghost use Rattle.nsc_switch.specs.Actions.{action_taken, all_takers};

use crate::joining::{join_outcome, row_in};
use crate::services::ServiceLook;
use nsc_base::NoMemory;
use nsc_model::{Kind, Looked, Row, SwitchAction, SwitchService, SwitchStep};
use std::alloc::Global;

/// Where a switch ended.
#[derive(Drop)]
pub struct Decided {
    /// The services whose rows were held to be joined with later ones, in the order of the steps.
    pub merged: Vec<SwitchService>,
    /// The service at which the switch ended. `None` if there is no step.
    pub taker: Option<SwitchService>,
    /// The outcome.
    pub outcome: Looked,
}

/// Asks the services of the steps in turn.
///
/// - The switch ends at the first step whose action at its outcome's status is to return, and at
///   the last step.
/// - At the action merge the row that was found is held, and joined with the row of a later service.
///   The switch ends there if no row was found, or if rows of this kind are not joined.
/// - At the action continue what was found is dropped, and the held row stays.
/// - The outcome of the service at which the switch ends is joined to the held row, at the last step
///   whatever the action. If that service found nothing, the outcome is the held row.
///
/// Over no step the outcome is unavailable. A switch that merges nothing takes no memory of its own.
pub fn decide<V: ServiceLook>(
    alloc: Global,
    services: &V,
    steps: &[SwitchStep],
    kind: Kind,
    key: &[u8],
) -> Result<Decided, NoMemory>
    ensures outcome { IfOk result (λ decided. decided.outcome ≡ switched kind (V.outcome services.now (record { kind = kind; key = key.now })) steps.now) }
    ensures takers { IfOk result (λ decided. all_takers decided ≡ takers kind (V.outcome services.now (record { kind = kind; key = key.now })) steps.now) }
{
    let mut merged = Vec::new(alloc);
    let Some((last, earlier)) = steps.split_last() else {
        return Ok(Decided {
            merged,
            taker: None,
            outcome: Looked::Unavail,
        });
    };
    let mut held = None;
    for step in earlier {
        let outcome = services.look(alloc, step.service, kind, key)?;
        match action_taken(kind, step, &outcome) {
            SwitchAction::Return => return end_at(alloc, held, merged, step.service, outcome),
            SwitchAction::Merge => {
                held = row_in(join_outcome(alloc, held, outcome)?);
                merged.push(step.service)?;
            }
            SwitchAction::Continue => drop(outcome),
        }
    }
    let outcome = services.look(alloc, last.service, kind, key)?;
    end_at(alloc, held, merged, last.service, outcome)
}

// Ends a switch at a service with this outcome, which is joined to the held row.
fn end_at(
    alloc: Global,
    held: Option<Row>,
    merged: Vec<SwitchService>,
    service: SwitchService,
    outcome: Looked,
) -> Result<Decided, NoMemory>
    ensures outcome { IfOk result (λ decided. decided.outcome ≡ joined held outcome) }
    ensures takers { IfOk result (λ decided. all_takers decided ≡ merged.items ++ service ∷ []) }
{
    Ok(Decided {
        merged,
        taker: Some(service),
        outcome: join_outcome(alloc, held, outcome)?,
    })
}

// The action of a step at an outcome; a merge that joins nothing is to return.
fn action_taken(kind: Kind, step: &SwitchStep, outcome: &Looked) -> SwitchAction
    ensures { result ≡ action_taken kind (action_at step.now outcome.now) outcome.now }
{
    match action_of(step, outcome) {
        SwitchAction::Return => SwitchAction::Return,
        SwitchAction::Merge => {
            if merges(kind, outcome) {
                SwitchAction::Merge
            } else {
                SwitchAction::Return
            }
        }
        SwitchAction::Continue => SwitchAction::Continue,
    }
}

// What a step does at the status of an outcome. No service answers that it may be tried again.
fn action_of(step: &SwitchStep, outcome: &Looked) -> SwitchAction
    ensures { result ≡ action_at step.now outcome.now }
{
    match outcome {
        Looked::Found(_) => step.success,
        Looked::NotFound => step.notfound,
        Looked::Unavail => step.unavail,
    }
}

// Whether a merge goes on: a row was found, of a kind whose rows are joined.
fn merges(kind: Kind, outcome: &Looked) -> bool
    ensures { result ≡ merges kind outcome.now }
{
    match outcome {
        Looked::Found(_) => is_joined(kind),
        Looked::NotFound | Looked::Unavail => false,
    }
}

// Whether rows of a kind are joined: groups by name or id, and the ids of a user's groups.
fn is_joined(kind: Kind) -> bool
    ensures { result ≡ is_joined kind }
{
    match kind {
        Kind::GrName | Kind::GrGid | Kind::InitGroups => true,
        Kind::PwName
        | Kind::PwUid
        | Kind::HostName
        | Kind::HostName6
        | Kind::HostAddr
        | Kind::HostAddr6
        | Kind::Ai
        | Kind::ServName
        | Kind::ServPort
        | Kind::NetgrEnt
        | Kind::InNetgr => false,
    }
}
