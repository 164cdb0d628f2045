// Members in group(5): the ids of a user's groups, and whether a user is a member.
ghost use Rattle.std.specs.Prelude.{◌≡◌, ◌≤◌, ◌&&◌, IfOk, length};
ghost use Rattle.std.specs.List.{list_any};
ghost use Rattle.std.specs.Option.{option_map};
ghost use Rattle.std.specs.Str.{bytes_eq};
ghost use Rattle.nsc_base.specs.Text.{is_filled, part};
ghost use Rattle.nsc_model.specs.Answers.{ids_of};
ghost use Rattle.nsc_model.specs.Entries.{if_named};
ghost use Rattle.nsc_model.specs.Groups.{group_of_line, has_member as is_member, members_of};

use crate::group::group_line;
use crate::once::OnceIds;
use nsc_base::{Case, Ids, NoMemory, Span, field_at, line_with};
use std::alloc::Global;

/// The ids of the groups of a group file, group(5), that have the user as a member, in the order of the file, each once.
/// Fails only for want of memory.
pub fn groups_of(alloc: Global, text: &[u8], user: &[u8]) -> Result<Ids, NoMemory>
    ensures { IfOk result (λ ids. ids ≡ ids_of user.now text.now) }
{
    let mut ids = OnceIds::new(alloc);
    let mut from = 0;
    while let Some(line) = line_with(text, from, user, Case::Counts) {
        if let Some(gid) = gid_of_member(text, line.span, user) {
            ids.add(gid)?;
        }
        from = line.next;
    }
    Ok(ids.into_ids())
}

// The id of the group of a line that has the form and has the user as a member.
pub(crate) fn gid_of_member(text: &[u8], line: Span, user: &[u8]) -> Option<u32>
    requires { line.to ≤ length text.now }
    ensures { result ≡ option_map (λ g. g.gid) (if_named (is_member user.now) (group_of_line (part text.now line))) }
{
    let group = group_line(text, line)?;
    if has_member(text, group.members, user) {
        Some(group.gid)
    } else {
        None
    }
}

/// Whether a user is a member, by the field of a group's entry that has the names of the members with commas between
/// them, group(5). A name counts whole, and between two commas with nothing between them no member stands. Takes no
/// memory.
pub fn has_member(text: &[u8], members: Span, user: &[u8]) -> bool
    requires { members.to ≤ length text.now }
    ensures { result ≡ list_any (λ m. bytes_eq m user.now) (members_of (part text.now members)) }
{
    let mut from = members.from();
    while let Some(member) = field_at(text, members, from, b',') {
        if names_user(member.span.of(text), user) {
            return true;
        }
        from = member.next;
    }
    false
}

// Whether a piece between commas names this user. An empty piece names none.
fn names_user(piece: &[u8], user: &[u8]) -> bool
    ensures { result ≡ (is_filled piece.now && bytes_eq piece.now user.now) }
{
    !piece.is_empty() && piece == user
}
