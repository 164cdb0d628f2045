// Reading of a service list of nsswitch.conf(5), and the list if no line spells one.
ghost use Rattle.std.specs.Prelude.{◌≡◌, ◌≤◌, ◌∷◌, [], length, IfOk, IfSome};
ghost use Rattle.std.specs.Option.{option_map};
ghost use Rattle.nsc_model.specs.Switches.{default_list, list_of, spelled_list};
ghost use Rattle.nsc_laws.specs.ServiceLists.{GivesList};

use crate::line::first_part;
use crate::place::{Move, Place, move_at};
use crate::token::next_token;
use nsc_base::NoMemory;
use nsc_model::{DbName, SwitchService, SwitchStep};
use std::alloc::Global;

/// Reads the service list of this name in the text of an nsswitch.conf(5): what the first line of the name spells. If there is no such
/// line, or if it breaks the grammar, the list is `files`, or for the compat lists a service that is not built in. An absent file is
/// passed as the empty text. The list has a step at least.
///
/// # Errors
///
/// `NoMemory` if memory is short.
pub fn service_list(alloc: Global, text: &[u8], name: DbName) -> Result<Vec<SwitchStep>, NoMemory>
    // By the grammar, and by a reader's machine.
    ensures given { IfOk result (λ list. GivesList text.now name list.items) }
    ensures list { IfOk result (λ list. list.items ≡ list_of text.now name) }
    ensures some { IfOk result (λ list. 1 ≤ length list.items) }
{
    read_list(alloc, text, name)
}

// Reads it token by token.
fn read_list(alloc: Global, text: &[u8], name: DbName) -> Result<Vec<SwitchStep>, NoMemory>
    ensures list { IfOk result (λ list. list.items ≡ list_of text.now name) }
    ensures some { IfOk result (λ list. 1 ≤ length list.items) }
{
    if let Some(part) = first_part(text, name)
        && let Some(list) = spelled(alloc, part)?
    {
        return Ok(list);
    }
    let mut list = Vec::new(alloc);
    list.push(default_step(name))?;
    Ok(list)
}

// The one step of the list of a name where no line spells it.
fn default_step(name: DbName) -> SwitchStep
    ensures { (result ∷ []) ≡ default_list name }
{
    match name {
        DbName::PasswdCompat | DbName::GroupCompat => SwitchStep::plain(SwitchService::Other),
        _ => SwitchStep::plain(SwitchService::Files),
    }
}

// The list that a text spells. `None` where it breaks the grammar.
fn spelled(alloc: Global, text: &[u8]) -> Result<Option<Vec<SwitchStep>>, NoMemory>
    ensures list { IfOk result (λ list. option_map (λ v. v.items) list ≡ spelled_list text.now) }
    ensures some { IfOk result (λ list. IfSome list (λ v. 1 ≤ length v.items)) }
{
    let mut list = Vec::new(alloc);
    let mut place = Place::First;
    let mut step = SwitchStep::plain(SwitchService::Other);
    let mut left = text;
    while let Some((token, rest)) = next_token(left) {
        match move_at(place, token) {
            None => return Ok(None),
            Some(Move::To(to)) => place = to,
            Some(Move::First(service)) => {
                place = Place::Between;
                step = SwitchStep::plain(service);
            }
            Some(Move::Another(service)) => {
                list.push(step)?;
                place = Place::Between;
                step = SwitchStep::plain(service);
            }
            Some(Move::Rule(rule)) => {
                place = Place::Ruled;
                step = rule.applied_to(step);
            }
        }
        left = rest;
    }
    match place {
        Place::Between => {
            list.push(step)?;
            Ok(Some(list))
        }
        _ => Ok(None),
    }
}
