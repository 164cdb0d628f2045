// The reader of nsswitch.conf(5).
ghost use Rattle.std.specs.Prelude.{◌≡◌, ◌++◌, IfNone, IfOk, IfSome, OnOk};
ghost use Rattle.nsc_model.specs.Switches.{list_of};
ghost use Rattle.nsc_fuzz.specs.Told.{IsNotTold, IsTold, action_told, list_numbered, service_kind_told, step_told, steps_told};

use crate::put::{hand_over, put_number};
use nsc_base::NoMemory;
use nsc_model::{DbName, SwitchAction, SwitchService, SwitchStep};
use nsc_switchconf::service_list;
use std::alloc::Global;

/// The service list of a name in a text of nsswitch.conf(5), where `name` is 0 for passwd, 1 for group, 2 for hosts, 3 for services, 4
/// for passwd_compat and 5 for group_compat: the list of the steps.
///
/// A step is five numbers: the service, and what is done at SUCCESS, NOTFOUND, UNAVAIL and TRYAGAIN. A service is 0 for files, 1 for
/// compat, 2 for extrausers and 3 for any other. An action is 0 for return, 1 for continue and 2 for merge.
#[unsafe(no_mangle)]
pub extern "C" fn nsc_service_list(alloc: Global, name: u8, text: &[u8], room: &mut [u8]) -> usize
    ensures told { IfSome (list_numbered name) (λ list. IsTold (steps_told (list_of text.now list)) room.old room.new result) }
    ensures none { IfNone (list_numbered name) (IsNotTold room.old room.new result) }
{
    match list_numbered(name) {
        Some(list) => hand_over(told(alloc, list, text), room),
        None => 0,
    }
}

// The list of a number.
fn list_numbered(number: u8) -> Option<DbName>
    ensures { result ≡ list_numbered number }
{
    match number {
        0 => Some(DbName::Passwd),
        1 => Some(DbName::Group),
        2 => Some(DbName::Hosts),
        3 => Some(DbName::Services),
        4 => Some(DbName::PasswdCompat),
        5 => Some(DbName::GroupCompat),
        _ => None,
    }
}

// What a service list is told as.
fn told(alloc: Global, name: DbName, text: &[u8]) -> Result<Vec<u8>, NoMemory>
    ensures { IfOk result (λ told. told.items ≡ steps_told (list_of text.now name)) }
{
    let steps = service_list(alloc, text, name)?;
    let mut out = Vec::new(alloc);
    put_steps(&mut out, steps.as_slice())?;
    Ok(out)
}

// Puts steps behind their count.
fn put_steps(out: &mut Vec<u8>, steps: &[SwitchStep]) -> Result<(), NoMemory>
    ensures { OnOk result (out.new.items ≡ out.old.items ++ steps_told steps.now) }
{
    put_number(out, steps.len() as u64)?;
    for step in steps {
        put_step(out, step)?;
    }
    Ok(())
}

// Puts a step.
#[tactic(auto, unfolding(crate::specs::Told::step_told))]
fn put_step(out: &mut Vec<u8>, step: &SwitchStep) -> Result<(), NoMemory>
    ensures { OnOk result (out.new.items ≡ out.old.items ++ step_told step.now) }
{
    put_service(out, step.service)?;
    put_action(out, step.success)?;
    put_action(out, step.notfound)?;
    put_action(out, step.unavail)?;
    put_action(out, step.tryagain)
}

// Puts the number of a service.
fn put_service(out: &mut Vec<u8>, service: SwitchService) -> Result<(), NoMemory>
    ensures { OnOk result (out.new.items ≡ out.old.items ++ service_kind_told service) }
{
    match service {
        SwitchService::Files => put_number(out, 0),
        SwitchService::Compat => put_number(out, 1),
        SwitchService::Extrausers => put_number(out, 2),
        SwitchService::Other => put_number(out, 3),
    }
}

// Puts the number of an action.
fn put_action(out: &mut Vec<u8>, action: SwitchAction) -> Result<(), NoMemory>
    ensures { OnOk result (out.new.items ≡ out.old.items ++ action_told action) }
{
    match action {
        SwitchAction::Return => put_number(out, 0),
        SwitchAction::Continue => put_number(out, 1),
        SwitchAction::Merge => put_number(out, 2),
    }
}
