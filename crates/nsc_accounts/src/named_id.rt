// The groups of a user in group(5), each with its name and its id.
ghost use Rattle.std.specs.Prelude.{◌≡◌, ◌≤◌, IfOk, Some, length, map};
ghost use Rattle.std.specs.Option.{option_map};
ghost use Rattle.nsc_base.specs.Text.{part};
ghost use Rattle.nsc_model.specs.Answers.{pairs_of};
ghost use Rattle.nsc_model.specs.Entries.{if_named};
ghost use Rattle.nsc_model.specs.Groups.{group_of_line, has_member as is_member};
ghost use Rattle.nsc_accounts.specs.NamedId.{pair_of};

use crate::group::group_line;
use crate::members::has_member;
use nsc_base::{Bytes, Case, NoMemory, Span, line_with};
use std::alloc::Global;

/// A group of a user: its name and its id.
#[derive(Debug, Drop)]
pub struct NamedId {
    /// The group's name.
    pub name: Bytes,
    /// The group's id.
    pub gid: u32,
}

/// The name and id of each group of a group file, group(5), that has the user as a member, in the order of the file, none
/// dropped. Fails only for want of memory.
pub fn named_groups(alloc: Global, text: &[u8], user: &[u8]) -> Result<Vec<NamedId>, NoMemory>
    ensures { IfOk result (λ groups. map pair_of groups.items ≡ pairs_of user.now (Some text.now)) }
{
    let mut groups = Vec::new(alloc);
    let mut from = 0;
    while let Some(line) = line_with(text, from, user, Case::Counts) {
        if let Some(group) = group_of_member(alloc, text, line.span, user)? {
            groups.push(group)?;
        }
        from = line.next;
    }
    Ok(groups)
}

// The group of a line that has the form and has the user as a member.
fn group_of_member(
    alloc: Global,
    text: &[u8],
    line: Span,
    user: &[u8],
) -> Result<Option<NamedId>, NoMemory>
    requires { line.to ≤ length text.now }
    ensures { IfOk result (λ group. option_map pair_of group ≡ option_map (λ g. (g.name, g.gid)) (if_named (is_member user.now) (group_of_line (part text.now line)))) }
{
    let Some(at) = group_line(text, line) else {
        return Ok(None);
    };
    if !has_member(text, at.members, user) {
        return Ok(None);
    }
    Ok(Some(NamedId {
        name: Bytes::copy(alloc, at.name.of(text))?,
        gid: at.gid,
    }))
}
