// The outcome of the service switch, nsswitch.conf(5), for a request.
ghost use Rattle.std.specs.Prelude.{◌≡◌, IfOk};
ghost use Rattle.nsc_model.specs.Answers.{looked_up, switched};
ghost use Rattle.nsc_model.specs.Files.{FilesFit};
ghost use Rattle.nsc_model.specs.Kinds.{database_of};
ghost use Rattle.nsc_switch.specs.Lists.{lists_of};

use crate::decided::decide;
use crate::lists::Lists;
use crate::services::{ServiceLook, Services};
use nsc_base::NoMemory;
use nsc_files::Finder;
use nsc_model::{Content, Db, Kind, Looked, SwitchStep};
use std::alloc::Global;

/// The outcome of the switch for the request of this kind and key, over a content: the services that its
/// nsswitch.conf(5) lists for the kind's database are asked in turn. No file of a content is longer than a file may be. Fails
/// only for want of memory.
pub fn switch(alloc: Global, content: &Content, kind: Kind, key: &[u8]) -> Result<Looked, NoMemory>
    ensures outcome { IfOk result (λ looked. looked ≡ looked_up content.now (record { kind = kind; key = key.now })) }
    ensures fits { FilesFit content.now }
{
    let lists = Lists::of(alloc, content)?;
    switch_by(alloc, content, &lists, kind, key)
}

/// The outcome of the switch for the request of this kind and key, over a content whose service lists were read before,
/// and whose entries are found in one way: what `switch` gives, and no list is read anew. Fails only for want of memory.
pub fn switch_by<F: Finder>(
    alloc: Global,
    finder: &F,
    lists: &Lists,
    kind: Kind,
    key: &[u8],
) -> Result<Looked, NoMemory>
    requires { lists.now ≡ lists_of (F.content finder.now) }
    ensures { IfOk result (λ looked. looked ≡ looked_up (F.content finder.now) (record { kind = kind; key = key.now })) }
{
    let services = Services { finder, lists };
    switch_over(alloc, &services, lists.list(Db::of(kind)), kind, key)
}

/// Asks the services of the steps in turn for the request of this kind and key, and gives the outcome.
///
/// - The switch ends at the first step whose action at its outcome's status is to return, and at
///   the last step.
/// - At the action merge the row of a group, or of a user's groups, is held and joined with the row
///   that a later service finds. If none finds one, the outcome is the held row.
/// - Over no step the outcome is unavailable.
pub fn switch_over<V: ServiceLook>(
    alloc: Global,
    services: &V,
    steps: &[SwitchStep],
    kind: Kind,
    key: &[u8],
) -> Result<Looked, NoMemory>
    ensures { IfOk result (λ looked. looked ≡ switched kind (V.outcome services.now (record { kind = kind; key = key.now })) steps.now) }
{
    Ok(decide(alloc, services, steps, kind, key)?.outcome)
}
