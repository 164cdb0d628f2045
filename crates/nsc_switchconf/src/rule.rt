// `Rule`: a rule in brackets of a service list, and its effect on a step.
ghost use Rattle.std.specs.Prelude.{◌≡◌};
ghost use Rattle.nsc_model.specs.Switches.{ruled};
ghost use Rattle.nsc_switchconf.specs.Places.{rule_of};

use nsc_model::{SwitchAction, SwitchStep};

/// What a service may answer.
#[derive(Clone, Copy, Debug, PartialEq, Eq)]
pub enum Status {
    /// It found an entry.
    Success,
    /// It has no such entry.
    NotFound,
    /// It cannot be asked.
    Unavail,
    /// It may answer later.
    TryAgain,
}

/// A rule in brackets: an action at a status, or at every other one.
#[derive(Clone, Copy, Debug)]
pub struct Rule {
    /// Whether a `!` stands before the status.
    pub negated: bool,
    /// The status.
    pub status: Status,
    /// The action.
    pub action: SwitchAction,
}

impl Rule {
    /// The step with this rule, which replaces what was said of its statuses before.
    pub fn applied_to(self, step: SwitchStep) -> SwitchStep
        ensures { result ≡ ruled (rule_of self) step }
    {
        let action_at = |status, before| {
            if (status == self.status) != self.negated {
                self.action
            } else {
                before
            }
        };
        SwitchStep {
            service: step.service,
            success: action_at(Status::Success, step.success),
            notfound: action_at(Status::NotFound, step.notfound),
            unavail: action_at(Status::Unavail, step.unavail),
            tryagain: action_at(Status::TryAgain, step.tryagain),
        }
    }
}
