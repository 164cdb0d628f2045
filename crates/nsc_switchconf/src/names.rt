// Names in a service list: of services, statuses and actions.
ghost use Rattle.std.specs.Prelude.{◌≡◌};
ghost use Rattle.std.specs.Option.{option_map};
ghost use Rattle.nsc_model.specs.Switches.{action_named, service_of_word, status_named};
ghost use Rattle.nsc_switchconf.specs.Places.{status_of};

use crate::rule::Status;
use nsc_base::equal;
use nsc_model::{SwitchAction, SwitchService};

/// The service of this name.
pub fn service(word: &[u8]) -> SwitchService
    ensures { result ≡ service_of_word word.now }
{
    if equal(word, b"files") {
        SwitchService::Files
    } else if equal(word, b"compat") {
        SwitchService::Compat
    } else if equal(word, b"extrausers") {
        SwitchService::Extrausers
    } else {
        SwitchService::Other
    }
}

/// The status of this name, in letters of either case.
pub fn status(word: &[u8]) -> Option<Status>
    ensures { option_map status_of result ≡ status_named word.now }
{
    if word.eq_ignore_ascii_case(b"success") {
        Some(Status::Success)
    } else if word.eq_ignore_ascii_case(b"notfound") {
        Some(Status::NotFound)
    } else if word.eq_ignore_ascii_case(b"unavail") {
        Some(Status::Unavail)
    } else if word.eq_ignore_ascii_case(b"tryagain") {
        Some(Status::TryAgain)
    } else {
        None
    }
}

/// The action of this name, in letters of either case.
pub fn action(word: &[u8]) -> Option<SwitchAction>
    ensures { result ≡ action_named word.now }
{
    if word.eq_ignore_ascii_case(b"return") {
        Some(SwitchAction::Return)
    } else if word.eq_ignore_ascii_case(b"continue") {
        Some(SwitchAction::Continue)
    } else if word.eq_ignore_ascii_case(b"merge") {
        Some(SwitchAction::Merge)
    } else {
        None
    }
}
