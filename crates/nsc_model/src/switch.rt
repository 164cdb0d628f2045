// Service lists of nsswitch.conf(5): the lists' names, services, actions and steps.
ghost use Rattle.std.specs.Prelude.{◌≡◌};
ghost use Rattle.nsc_model.specs.Services.{plain_step};

/// The lists of nsswitch.conf(5): of each database, and those that the compat lines of passwd and group ask.
#[derive(Clone, Copy, Debug, PartialEq, Eq)]
pub enum DbName {
    /// `passwd`.
    Passwd,
    /// `group`.
    Group,
    /// `hosts`.
    Hosts,
    /// `services`.
    Services,
    /// `passwd_compat`.
    PasswdCompat,
    /// `group_compat`.
    GroupCompat,
}

/// The services that are built in, and every other one.
#[derive(Clone, Copy, Debug, PartialEq, Eq)]
pub enum SwitchService {
    /// `files`: the database's own file.
    Files,
    /// `compat`: lines of passwd and group that begin with `+` or `-`.
    Compat,
    /// `extrausers`: the extra files of passwd and group.
    Extrausers,
    /// A service that is not built in, which is unavailable.
    Other,
}

/// What the switch does at a status of a service.
#[derive(Clone, Copy, Debug, PartialEq, Eq)]
pub enum SwitchAction {
    /// It ends with this outcome.
    Return,
    /// It asks the next service.
    Continue,
    /// It joins the outcome with that of the next service.
    Merge,
}

/// A service of a list, with an action for each status.
#[derive(Clone, Copy, Debug, PartialEq, Eq)]
pub struct SwitchStep {
    /// The service.
    pub service: SwitchService,
    /// What is done where it found an entry.
    pub success: SwitchAction,
    /// What is done where it has no such entry.
    pub notfound: SwitchAction,
    /// What is done where it cannot be asked.
    pub unavail: SwitchAction,
    /// What is done where it may answer later.
    pub tryagain: SwitchAction,
}

impl SwitchStep {
    /// A service with no rules: the switch ends where it found an entry, and goes on at every other status.
    pub fn plain(service: SwitchService) -> SwitchStep
        ensures { result ≡ plain_step service }
    {
        SwitchStep {
            service,
            success: SwitchAction::Return,
            notfound: SwitchAction::Continue,
            unavail: SwitchAction::Continue,
            tryagain: SwitchAction::Continue,
        }
    }
}
