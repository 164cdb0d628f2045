// `ServiceLook`: the trait of the services of a list; and the services over a content.
ghost use Rattle.std.specs.Prelude.{◌≡◌, IfOk};
ghost use Rattle.nsc_model.specs.declared.answer.Request.{Request};
ghost use Rattle.nsc_model.specs.declared.row.Looked.{Looked};
ghost use Rattle.nsc_model.specs.declared.switch.SwitchService.{SwitchService};
ghost use Rattle.nsc_model.specs.Answers.{service_answer};
ghost use Rattle.nsc_switch.specs.Lists.{lists_of};

use crate::compat::SubServices;
use crate::lists::Lists;
use nsc_base::NoMemory;
use nsc_compat::compat_lookup;
use nsc_files::{Finder, extra_lookup, files_lookup};
use nsc_model::{Kind, Looked, SwitchService};
use std::alloc::Global;

/// The services of a list, over one content.
pub trait ServiceLook {
    /// The outcome of a service for a request.
    ghost outcome: { Self → Request → SwitchService → Looked };

    /// The outcome of a service for the request of this kind and key. Fails only for want of memory.
    fn look(
        &self,
        alloc: Global,
        service: SwitchService,
        kind: Kind,
        key: &[u8],
    ) -> Result<Looked, NoMemory>
        ensures { IfOk result (λ looked. looked ≡ outcome self.now (record { kind = kind; key = key.now }) service) };
}

/// The services of a database's own list, over a content whose lists were read before, and whose entries are found in one way.
#[derive(Drop)]
pub struct Services<'a, F: Finder> {
    /// What finds the entries of the content.
    pub finder: &'a F,
    /// The service lists of the content.
    pub lists: &'a Lists,
    pub ghost read: { lists.now ≡ lists_of (F.content finder.now) },
}

impl<'a, F: Finder> ServiceLook for Services<'a, F> {
    ghost outcome = { λ services. service_answer (F.content services.finder.now) };

    fn look(
        &self,
        alloc: Global,
        service: SwitchService,
        kind: Kind,
        key: &[u8],
    ) -> Result<Looked, NoMemory> {
        match service {
            SwitchService::Files => files_lookup(alloc, self.finder, kind, key),
            SwitchService::Extrausers => extra_lookup(alloc, self.finder, kind, key),
            SwitchService::Compat => {
                let sub = SubServices {
                    finder: self.finder,
                    lists: self.lists,
                };
                compat_lookup(alloc, kind, key, &sub)
            }
            SwitchService::Other => Ok(Looked::Unavail),
        }
    }
}
