//! The services that compat lines ask.

ghost use Rattle.std.specs.Prelude.{◌≡◌, IfOk, flat_map, map};
ghost use Rattle.nsc_model.specs.Answers.{service_pairs, sub_answer};
ghost use Rattle.nsc_accounts.specs.NamedId.{pair_of};
ghost use Rattle.nsc_switch.specs.Actions.{all_takers};
ghost use Rattle.nsc_switch.specs.Lists.{lists_of};

use crate::decided::{Decided, decide};
use crate::lists::Lists;
use crate::services::ServiceLook;
use nsc_accounts::{NamedId, Sought};
use nsc_base::{NoMemory, Span};
use nsc_compat::SubLookup;
use nsc_files::{Finder, extra_lookup, files_lookup};
use nsc_model::{Content, Db, FileId, Kind, Looked, SwitchService};
use std::alloc::Global;

/// The services of the lists `passwd_compat` and `group_compat`, over a content whose lists were read before: compat
/// itself is unavailable there.
#[derive(Drop)]
pub(crate) struct SubServices<'a, F: Finder> {
    pub finder: &'a F,
    pub lists: &'a Lists,
    pub ghost read: { lists.now ≡ lists_of (F.content finder.now) },
}

impl<'a, F: Finder> ServiceLook for SubServices<'a, F> {
    ghost outcome = { λ services. sub_answer (F.content services.finder.now) };

    fn look(
        &self,
        alloc: Global,
        service: SwitchService,
        kind: Kind,
        key: &[u8],
    ) -> Result<Looked, NoMemory> {
        match service {
            SwitchService::Files => files_lookup(alloc, self.finder, kind, key),
            SwitchService::Extrausers => extra_lookup(alloc, self.finder, kind, key),
            SwitchService::Compat | SwitchService::Other => Ok(Looked::Unavail),
        }
    }
}

impl<'a, F: Finder> SubLookup for SubServices<'a, F> {
    ghost content = { λ services. F.content services.finder.now };

    fn content(&self) -> &Content {
        self.finder.content()
    }

    fn lines(&self, alloc: Global, sought: Sought) -> Result<Vec<Span>, NoMemory> {
        self.finder.compat_lines(alloc, sought)
    }

    fn look(&self, alloc: Global, kind: Kind, key: &[u8]) -> Result<Looked, NoMemory> {
        let steps = self.lists.compat_list(Db::of(kind));
        Ok(decide(alloc, self, steps, kind, key)?.outcome)
    }

    fn named_groups(&self, alloc: Global, user: &[u8]) -> Result<Vec<NamedId>, NoMemory> {
        let steps = self.lists.compat_list(Db::Group);
        let decided = decide(alloc, self, steps, Kind::InitGroups, user)?;
        groups_taken(alloc, self.finder, &decided, user)
    }
}

// The groups of a user that a switch takes: those in the files of its takers, in the order of the steps.
fn groups_taken<F: Finder>(
    alloc: Global,
    finder: &F,
    decided: &Decided,
    user: &[u8],
) -> Result<Vec<NamedId>, NoMemory>
    ensures { IfOk result (λ groups. map pair_of groups.items ≡ flat_map (service_pairs (F.content finder.now) user.now) (all_takers decided.now)) }
{
    let mut groups = Vec::new(alloc);
    for service in decided.merged.as_slice() {
        let mut more = groups_in(alloc, finder, *service, user)?;
        groups.append(&mut more)?;
    }
    if let Some(service) = decided.taker {
        let mut more = groups_in(alloc, finder, service, user)?;
        groups.append(&mut more)?;
    }
    Ok(groups)
}

// The groups of a user in the file of a service.
fn groups_in<F: Finder>(
    alloc: Global,
    finder: &F,
    service: SwitchService,
    user: &[u8],
) -> Result<Vec<NamedId>, NoMemory>
    ensures { IfOk result (λ groups. map pair_of groups.items ≡ service_pairs (F.content finder.now) user.now service) }
{
    let file = match service {
        SwitchService::Files => FileId::Group,
        SwitchService::Extrausers => FileId::ExtraGroup,
        SwitchService::Compat | SwitchService::Other => return Ok(Vec::new(alloc)),
    };
    match finder.content().file(file) {
        Some(text) => finder.named_groups(alloc, file, text, user),
        None => Ok(Vec::new(alloc)),
    }
}
